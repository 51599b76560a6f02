// A full list of which some steps are refused, and a run that is on its way when the list comes.
use super::calls;
use super::told::Desk;
use cabinet::Reading;
use lists::MOST_LISTED;
use std::array;
use types::Step;

// A step more than a list may have.
pub const ROWS: usize = MOST_LISTED + 1;

// One part of a write to three of four cabinets; then a second stop, a cabinet that is none, an empty slot and a step of no kind.
const ROUND: [Step; 16] = [
    Step::Write(1, Reading::Open(6)),
    Step::Send(1, 1),
    Step::Deliver(1),
    Step::Deliver(1),
    Step::Send(1, 2),
    Step::Deliver(1),
    Step::Deliver(1),
    Step::Send(1, 3),
    Step::Deliver(1),
    Step::Deliver(1),
    Step::Stop(4),
    Step::Stop(4),
    Step::Restart(4),
    Step::Send(1, 9),
    Step::Lose(1),
    Step::Other,
];

fn row(i: usize) -> Step {
    ROUND[i % ROUND.len()]
}

pub fn full_list() -> [Step; ROWS] {
    array::from_fn(|i| row(i))
}

// The first of them, as many as a list may have: with these at hand a count may ask for more.
pub fn at_hand() -> [Step; MOST_LISTED] {
    array::from_fn(|i| row(i))
}

// The run has four cabinets, the fourth down, and its first client is in the second part of a write.
pub fn begun() -> Desk {
    let run = run::start(4, 1, 1, 2).run;
    let begun = calls::singly(&Desk::of(&run), &full_list()[..11]);
    Desk::of(&begun.desk.run)
}

// How many of the answers are refusals.
pub fn refused(answers: &[u8]) -> usize {
    answers.iter().filter(|n| **n > 0).count()
}
