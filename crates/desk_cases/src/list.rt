// A list through both entrances: its second row plans the run, and every row after that is a step of it.
ghost use Rattle.std.specs.Prelude.{◌≡◌, ◌+◌, ◌≤◌, length, IfSome};
ghost use Rattle.cases.specs.Sizes.{most_list_bytes};

use super::both::{Both, Compared};
use cases::line_from;
use text::{parse, step_of};

// The first row that differs is counted from the plan, as in a transcript.
#[derive(Clone, Copy)]
pub struct Tally {
    pub accepted: u64,
    pub refused: u64,
    pub differs: Option<u64>,
}

impl Tally {
    // The plan is row 1, so the first step is row 2.
    fn count(&mut self, step: Compared)
        requires { self.old.accepted + self.old.refused ≤ most_list_bytes }
        ensures { self.new.accepted + self.new.refused ≡ self.old.accepted + self.old.refused + 1 }
    {
        let row = self.accepted + self.refused + 2;
        if !step.same {
            self.differs = self.differs.or(Some(row));
        }
        if step.accepted {
            self.accepted += 1;
        } else {
            self.refused += 1;
        }
    }
}

// None where the list plans no run. A list is held whole, in a buffer of `most_list_bytes`, so that its steps can be counted.
pub fn compare(s: &[u8]) -> Option<Tally>
    requires { length s.now ≤ most_list_bytes }
    ensures { IfSome result (λ t. t.accepted + t.refused ≤ most_list_bytes) }
{
    let begun = cases::begin(s)?;
    let mut both = Both::of(&begun.run);
    let mut tally = Tally {
        accepted: 0,
        refused: 0,
        differs: None,
    };
    let mut at = begun.from;
    while at < s.len() {
        let line = line_from(s, at);
        tally.count(both.step(step_of(parse(line.row))));
        at = line.next;
    }
    Some(tally)
}
