// A table of the caller's own, lent for one list: for Rattle code that holds its records in an array.
ghost use Rattle.std.specs.Prelude.{◌≡◌};
ghost use Rattle.desk_lists.specs.Lent.{local_first_of};

use super::lent_first;
use cabinet::Cabinet;
use limits::MOST_CABINETS;
use lists::Whole;
use run::Run;
use types::Step;

// S20.9, S21.1, S21.6. The first `len` records are lent, all nine where more are asked for, and the others stay as they are.
pub fn list_local(
    run: &mut Run,
    table: &mut [Cabinet; MOST_CABINETS],
    len: usize,
    steps: &[Step],
    count: usize,
    answers: &mut [u8],
) -> Whole
    ensures { (record { listed = record { whole = result; run = run.new }; table = table.new }, answers.new) ≡ local_first_of run.old table.old len steps.now count answers.old }
{
    lent_first(
        run,
        &mut table[..len.min(MOST_CABINETS)],
        steps,
        count,
        answers,
    )
}
