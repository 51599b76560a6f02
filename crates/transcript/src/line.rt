// A row's bytes so far, and what they say.
use super::{MOST_LINE, Rehearsal};
use text::{Row, is_header, parse, trim};

#[tactic(auto, using(crate::proofs::MachineLaws::in_row), unfolding(crate::specs::Machine::held_of))]
impl Rehearsal {
    ghost use Rattle.std.specs.Prelude.{◌≡◌, option_copied};
    ghost use Rattle.transcript.specs.Machine.{held_of, mach_of, pick_held, push as Machine·push, row_in, head_in, short};

    // The bytes; None where they are too many.
    fn held(&self) -> Option<&[u8]>
        ensures { pick_held (option_copied result) ≡ held_of self.now.len self.now.line }
    {
        self.line.get(..self.len)
    }

    pub(super) fn is_header(&self) -> bool
        ensures { result ≡ head_in (held_of self.now.len self.now.line) }
    {
        self.held().is_some_and(|l| is_header(l))
    }

    pub(super) fn says(&self) -> Option<Row>
        ensures { result ≡ row_in (held_of self.now.len self.now.line) }
    {
        parse(self.held()?)
    }

    // A byte that is no LF.
    pub(super) fn push(&mut self, b: u8)
        ensures { mach_of self.new ≡ record (mach_of self.old) { held = Machine·push (held_of self.old.len self.old.line) b } }
    {
        if self.len < MOST_LINE {
            self.line[self.len] = b;
            self.len += 1;
        } else {
            self.len = MOST_LINE + 1;
        }
    }

    // One CR belongs to the row's end, where an LF comes after it.
    pub(super) fn shorten(&mut self)
        ensures { mach_of self.new ≡ record (mach_of self.old) { held = short (held_of self.old.len self.old.line) } }
    {
        if let Some(l) = self.held() {
            self.len = trim(l).len();
        }
    }
}
