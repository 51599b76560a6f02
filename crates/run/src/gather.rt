// What a step asks of the whole run, and what it sees of a cabinet.
ghost use Rattle.std.specs.Prelude.{◌≡◌, ◌≤◌, ◌<◌, IfSome, IfNone};
ghost use Rattle.limits.specs.Limits.{most_slots};
ghost use Rattle.types.specs.Parts.{sight_of};
ghost use Rattle.run.specs.Gather.{is_empty, first_from, others_from};

use super::Run;
use cabinet::Cabinet;
use limits::{MOST_CABINETS, byte};
use types::{Held, Sight, Slot};

pub fn is_empty(t: &Slot) -> bool
    ensures { result ≡ is_empty t.now.held }
{
    matches!(t.held, Held::Empty)
}

impl Run {
    // S6.2, S20.3: the lowest free slot.
    pub(super) fn first_free(&self) -> Option<u8>
        ensures free { IfSome result (λ j. (first_from 0 self.now.slots ≡ j) × (j < most_slots)) }
        ensures full { IfNone result (most_slots ≤ first_from 0 self.now.slots) }
    {
        let mut free = None;
        for j in 0..byte::MOST_SLOTS {
            if is_empty(&self.slots[j as usize]) {
                free = Some(j);
                break;
            }
        }
        free
    }
}

pub fn others_marked(p: u8, cabinets: &[Cabinet; MOST_CABINETS]) -> u8
    ensures { result ≡ others_from p 0 cabinets.now }
{
    let others = cabinets
        .iter()
        .enumerate()
        .filter(|(i, k)| *i != p as usize && k.marked);
    others.count() as u8
}

pub fn sight(k: &Cabinet) -> Sight
    ensures { result ≡ sight_of k.now }
{
    Sight {
        present: k.present(),
        kept: k.kept,
        power: k.power,
        marked: k.marked,
    }
}
