// The entrance over a lent table. The lent records stand in the run while it takes its step, and its own are put aside.
ghost use Rattle.std.specs.Prelude.{◌≡◌};
ghost use Rattle.desk.specs.Desk.{with_cabinets, nine_of, given_back, lent_of, table_of};

use super::{Lent, WrongLength};
use cabinet::Cabinet;
use limits::MOST_CABINETS;
use run::Run;
use types::Step;

// The run gets the lent records, with fresh cabinets past them, and its own come back, to be kept for `give_back`. Of a table of more than nine
// the first nine are lent.
#[tactic(auto, using(crate::proofs::TableLaws::nine_is), unfolding(crate::specs::Desk::with_cabinets))]
pub fn lend(run: &mut Run, table: &[Cabinet]) -> [Cabinet; MOST_CABINETS]
    ensures own { result ≡ run.old.cabinets }
    ensures lent { run.new ≡ with_cabinets run.old (nine_of table.now) }
{
    let own = run.cabinets;
    let few = table.len().min(MOST_CABINETS);
    run.cabinets = [Cabinet::fresh(); MOST_CABINETS];
    run.cabinets[..few].copy_from_slice(&table[..few]);
    own
}

// The table gets the records that were lent, as they are after whatever the run did, and the run its own.
#[tactic(auto, using(crate::proofs::TableLaws::back_is), unfolding(crate::specs::Desk::with_cabinets))]
pub fn give_back(run: &mut Run, table: &mut [Cabinet], own: &[Cabinet; MOST_CABINETS])
    ensures lent { table.new ≡ given_back run.old.cabinets table.old }
    ensures own { run.new ≡ with_cabinets run.old own.now }
{
    let few = table.len().min(MOST_CABINETS);
    table[..few].copy_from_slice(&run.cabinets[..few]);
    run.cabinets = *own;
}

// S14.1, S20.8: a step over the records that the desk lends.
pub fn step_lent(run: &mut Run, table: &mut [Cabinet], s: Step) -> Lent
    ensures { (record { answer = result; run = run.new } ≡ lent_of run.old table.old s) × (table.new ≡ table_of run.old table.old s) }
{
    if table.len() != run.plan.n as usize {
        return Err(WrongLength);
    }
    let own = lend(run, table);
    let answer = run.take(s);
    give_back(run, table, &own);
    Ok(answer)
}
