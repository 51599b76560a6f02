// Whole step rows of an input, taken one after another on a lent run. A reached run is undamaged, so that no step is checked again.
#![tactic(auto)]

ghost use Rattle.std.specs.Prelude.{◌≡◌, true, ◌≤◌, ◌<◌, ◌+◌, ◌*◌, ◌^◌, length};
ghost use Rattle.print.specs.Rows.{room};
ghost use Rattle.run.specs.Undamaged.{undamaged};
ghost use Rattle.text.specs.Ends.{breaks};
ghost use Rattle.turns.specs.Turns.{Took};

use print::put_step;
use run::Run;
use text::find;

// How many bytes the rows had, where the next answer goes, and the next row's number.
#[derive(Clone, Copy, PartialEq, Eq)]
pub struct Went {
    pub used: usize,
    pub at: usize,
    pub row: u64,
}

// Every whole row of s, in order.
pub fn steps(s: &[u8], out: &mut [u8], at: usize, row: u64, run: &mut Run) -> Went
    requires answers_fit { at + room * breaks s.now ≤ length out.old }
    requires rows_fit { row + breaks s.now < 2 ^ 64 }
    requires whole { undamaged run.old ≡ true }
    ensures { Took s.now at row run.old out.old out.new run.new result }
{
    let mut went = Went { used: 0, at, row };
    while let Some(found) = find(s, went.used) {
        let answer = run.go(found.step, true);
        went.at = put_step(out, went.at, went.row, answer);
        went.used = found.end;
        went.row += 1;
    }
    went
}
