// The desk's entrance: it lends its table of cabinet records, which stand for the run's own, and a step changes at most one of them.
#![tactic(auto)]

mod array;
mod entrance;

ghost use Rattle.std.specs.Prelude.{◌≡◌};
ghost use Rattle.desk.specs.Names.{Err};
ghost use Rattle.desk.specs.Desk.{lent_number};

pub use array::step_local;
pub use entrance::{give_back, lend, step_lent};
use types::Answer;

// Beside the answers of a step on a run of its own: the table has not n records.
#[derive(Clone, Copy, PartialEq, Eq)]
pub struct WrongLength;

// The number that comes back with such a table.
impl From<WrongLength> for u8 {
    ghost from_gives = { λ why n. n ≡ lent_number (Err why) };

    fn from(_: WrongLength) -> u8 {
        14
    }
}

pub type Lent = Result<Answer, WrongLength>;
