// A list of steps in one go: the run after all of them, and the number of each answer in a lent table.
#![tactic(auto)]

ghost use Rattle.std.specs.Prelude.{◌≡◌, ◌≤◌, length, replicate};
ghost use Rattle.lists.specs.Names.{Err};
ghost use Rattle.lists.specs.Whole.{fits, first_list_of, in_front, list_of, whole_number};

use run::Run;
use types::{Refusal, Step, answer_number};

// A morning's list, and no more than a desk answers at a time.
pub const MOST_LISTED: usize = 256;

// Too many steps, or not a place for the answer of each: none is taken.
#[derive(Clone, Copy, PartialEq, Eq)]
pub struct NoRoom;

// The number that comes back with such a list.
impl From<NoRoom> for u8 {
    ghost from_gives = { λ why n. n ≡ whole_number (Err why) };

    fn from(_: NoRoom) -> u8 {
        16
    }
}

// Whether the list was taken at all: what each step was answered stands in the table.
pub type Whole = Result<(), NoRoom>;

// So many steps are a list, and each has a place.
pub fn fits(count: usize, places: usize) -> bool
    ensures { result ≡ fits count places }
{
    count <= MOST_LISTED && count <= places
}

// S21.4. One number for each of the first `count` answers; those behind are as they were.
pub fn fill(answers: &mut [u8], count: usize, number: u8)
    requires { count ≤ length answers.old }
    ensures { answers.new ≡ in_front (replicate count number) answers.old }
{
    answers[..count].fill(number);
}

// S20.9, S21.3. Steps and answers are lent slices; the run is looked at once, before the first step, since none of them damages it.
#[tactic(auto, using(crate::proofs::ListLaws::list_untaken), unfolding(crate::specs::Whole::untaken_of))]
pub fn take_list(run: &mut Run, steps: &[Step], answers: &mut [u8]) -> Whole
    ensures { (record { whole = result; run = run.new }, answers.new) ≡ list_of run.old steps.now answers.old }
{
    if !fits(steps.len(), answers.len()) {
        return Err(NoRoom);
    }
    if !run.undamaged() {
        fill(answers, steps.len(), u8::from(Refusal::Damaged));
        return Ok(());
    }
    for (i, s) in steps.iter().enumerate() {
        answers[i] = answer_number(run.go(*s, true));
    }
    Ok(())
}

// S20.9, S21.1. The first `count` of the steps at hand; where fewer are at hand, all of them.
#[tactic(auto, using(crate::proofs::ListLaws::first_untaken), unfolding(crate::specs::Whole::untaken_of))]
pub fn take_first(run: &mut Run, steps: &[Step], count: usize, answers: &mut [u8]) -> Whole
    ensures { (record { whole = result; run = run.new }, answers.new) ≡ first_list_of run.old steps.now count answers.old }
{
    if !fits(count, answers.len()) {
        return Err(NoRoom);
    }
    take_list(run, &steps[..count.min(steps.len())], answers)
}
