// A list of steps in one go over the desk's lent table of cabinet records, each step answered as the lent entrance answers it.
#![tactic(auto)]

mod array;

ghost use Rattle.std.specs.Prelude.{◌≡◌};
ghost use Rattle.desk_lists.specs.Lent.{lent_first_of, lent_list_of};

pub use array::list_local;
use cabinet::Cabinet;
use desk::{WrongLength, give_back, lend};
use lists::{NoRoom, Whole, fill, fits, take_list};
use run::Run;
use types::Step;

// S20.9, S21.6. Steps, records and answers are lent slices; the records go into the run once for the whole list.
#[tactic(auto, using(crate::proofs::LentLaws::lent_untaken), unfolding(crate::specs::Lent::lent_untaken_of))]
pub fn list_lent(run: &mut Run, table: &mut [Cabinet], steps: &[Step], answers: &mut [u8]) -> Whole
    ensures { (record { whole = result; run = run.new }, table.new, answers.new) ≡ lent_list_of run.old table.old steps.now answers.old }
{
    if !fits(steps.len(), answers.len()) {
        return Err(NoRoom);
    }
    if table.len() != run.plan.n as usize {
        fill(answers, steps.len(), u8::from(WrongLength));
        return Ok(());
    }
    let own = lend(run, table);
    let whole = take_list(run, steps, answers);
    give_back(run, table, &own);
    whole
}

// S20.9, S21.1. The first `count` of the steps at hand; where fewer are at hand, all of them.
#[tactic(auto, using(crate::proofs::LentLaws::lent_first_untaken), unfolding(crate::specs::Lent::lent_untaken_of))]
pub fn lent_first(
    run: &mut Run,
    table: &mut [Cabinet],
    steps: &[Step],
    count: usize,
    answers: &mut [u8],
) -> Whole
    ensures { (record { whole = result; run = run.new }, table.new, answers.new) ≡ lent_first_of run.old table.old steps.now count answers.old }
{
    if !fits(count, answers.len()) {
        return Err(NoRoom);
    }
    list_lent(run, table, &steps[..count.min(steps.len())], answers)
}
