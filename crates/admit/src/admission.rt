// Which steps are let in, and their places counted from 0.
ghost use Rattle.std.specs.Prelude.{◌≡◌, true, false, ◌-◌, IfOk, IfErr};
ghost use Rattle.cabinet.specs.Entries.{reading_in};
ghost use Rattle.admit.specs.Names.{Refusal, Work, Ok};
ghost use Rattle.admit.specs.Admit.{one_to, in_range, placed, admit_of};

use cabinet::Reading;
use limits::{MOST_STEPS, byte};
use types::{Asked, Refusal, Step, Work};

// A number from 1 to the most.
#[tactic(auto, unfolding(crate::specs::Admit::one_to))]
fn one_to(most: u8, x: u8) -> Result<u8, Refusal>
    ensures ok { IfOk result (λ y. (one_to most x ≡ true) × (y ≡ x)) }
    ensures err { IfErr result (λ why. (one_to most x ≡ false) × (why ≡ Refusal.Range)) }
{
    if 1 <= x && x <= most {
        Ok(x)
    } else {
        Err(Refusal::Range)
    }
}

// The place, from 0, of such a number.
#[tactic(auto, unfolding(crate::specs::Admit::one_to))]
fn place(most: u8, x: u8) -> Result<u8, Refusal>
    ensures ok { IfOk result (λ i. (one_to most x ≡ true) × (i ≡ x - 1)) }
    ensures err { IfErr result (λ why. (one_to most x ≡ false) × (why ≡ Refusal.Range)) }
{
    Ok(one_to(most, x)? - 1)
}

// What a write begins with.
fn first_write(r: Reading) -> Result<Work, Refusal>
    ensures ok { IfOk result (λ w. (reading_in r ≡ true) × (w ≡ Work.FirstWrite r)) }
    ensures err { IfErr result (λ why. (reading_in r ≡ false) × (why ≡ Refusal.Range)) }
{
    if r.in_range() {
        Ok(Work::FirstWrite(r))
    } else {
        Err(Refusal::Range)
    }
}

// One match for range and places: a second one would be a second jump in the loop over steps.
#[tactic(auto, unfolding(crate::specs::Admit::in_range, crate::specs::Admit::placed))]
fn placed(n: u8, s: Step) -> Result<Asked, Refusal>
    ensures ok { IfOk result (λ a. (in_range n s ≡ true) × (Ok a ≡ placed s)) }
    ensures err { IfErr result (λ why. (in_range n s ≡ false) × (why ≡ Refusal.Range)) }
{
    Ok(match s {
        Step::Other => return Err(Refusal::Range),
        Step::Write(c, r) => Asked::Begins(place(byte::MOST_CLIENTS, c)?, first_write(r)?),
        Step::Read(c) => Asked::Begins(place(byte::MOST_CLIENTS, c)?, Work::FirstRead),
        Step::Send(c, k) => Asked::Sends(place(byte::MOST_CLIENTS, c)?, place(n, k)?),
        Step::Deliver(j) => Asked::Delivers(place(byte::MOST_SLOTS, j)?),
        Step::Lose(j) => Asked::Loses(place(byte::MOST_SLOTS, j)?),
        Step::Stop(k) => Asked::Stops(place(n, k)?),
        Step::Leave(c) => Asked::Leaves(place(byte::MOST_CLIENTS, c)?),
        Step::Restart(k) => Asked::Restarts(place(n, k)?),
        Step::Rollback(k, j) => Asked::RollsBack(place(n, k)?, one_to(byte::TO_FACTORY, j)?),
    })
}

// The range is looked at before the limit.
#[tactic(auto, unfolding(crate::specs::Admit::admit_of))]
pub fn admit(n: u8, steps: u32, s: Step) -> Result<Asked, Refusal>
    ensures { result ≡ admit_of n steps s }
{
    let asked = placed(n, s)?;
    if MOST_STEPS <= steps {
        return Err(Refusal::Limit);
    }
    Ok(asked)
}
