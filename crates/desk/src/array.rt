// A table of the caller's own, lent for one step: for Rattle code that holds its records in an array.
ghost use Rattle.std.specs.Prelude.{◌≡◌};
ghost use Rattle.desk.specs.Desk.{local_of};

use super::{Lent, step_lent};
use cabinet::Cabinet;
use limits::MOST_CABINETS;
use run::Run;
use types::Step;

// S14.1, S20.8. The first `len` records are lent, all nine where more are asked for, and the others stay as they are.
pub fn step_local(run: &mut Run, table: &mut [Cabinet; MOST_CABINETS], len: usize, s: Step) -> Lent
    ensures { record { served = record { answer = result; run = run.new }; table = table.new } ≡ local_of run.old table.old len s }
{
    step_lent(run, &mut table[..len.min(MOST_CABINETS)], s)
}
