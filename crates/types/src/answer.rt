// What a step is answered, and what it looks at of a cabinet.
ghost use Rattle.std.specs.Prelude.{◌≡◌};
ghost use Rattle.types.specs.Answers.{refusal_number, answer_number};

use cabinet::{Entry, Power};

// S12.1 to S12.11, in the order of the numbers.
#[derive(Clone, Copy, PartialEq, Eq)]
pub enum Refusal {
    Damaged = 1,
    Range,
    Limit,
    HasLeft,
    NotIdle,
    IsIdle,
    Full,
    NoMessage,
    IsDown,
    NoVersion,
    TooMany,
}

// The number that comes back with a refusal.
impl From<Refusal> for u8 {
    ghost from_gives = { λ why n. n ≡ refusal_number why };

    fn from(why: Refusal) -> u8 {
        why as u8
    }
}

// S8.5, S8.6, S8.7: how a part ended.
#[derive(Clone, Copy, PartialEq, Eq)]
pub enum Ending {
    Chosen,
    Found,
    Written,
    Read,
}

// S5.2: what an accepted step came to. With the slot, counted from 1, of a send, a deliver or a lose, and the entry of a part that ended.
#[derive(Clone, Copy, PartialEq, Eq)]
pub enum Outcome {
    Begun,
    Sent(u8),
    Answered(u8),
    Unanswered(u8),
    Discarded(u8),
    Counted(u8),
    Ended(Ending, u8, Entry),
    Lost(u8),
    Stopped,
    Left,
    Restarted,
    RolledBack,
}

// S5.2: accepted or refused.
pub type Answer = Result<Outcome, Refusal>;

// The number that comes back with an answer.
pub fn answer_number(answer: Answer) -> u8
    ensures { result ≡ answer_number answer }
{
    match answer {
        Ok(_) => 0,
        Err(why) => u8::from(why),
    }
}

// What a step looks at of a cabinet: all but its older versions.
#[derive(Clone, Copy, PartialEq, Eq)]
pub struct Sight {
    pub present: Entry,
    pub kept: u8,
    pub power: Power,
    pub marked: bool,
}
