// A run of the register as one value: planning a fresh one, the damage check, and one step at a time.
#![tactic(auto)]

mod fresh;
mod gather;
mod guarded;
mod steps;

use cabinet::Cabinet;
pub use fresh::{Started, start};
pub use gather::{is_empty, others_marked, sight};
use limits::{MOST_CABINETS, MOST_CLIENTS, MOST_SLOTS};
use plan::Plan;
use types::{Client, Slot};

// S4.1, S20.1: clients, cabinets and slots count from 0 here; places past n hold fresh cabinets.
#[derive(Clone, Copy, PartialEq, Eq)]
pub struct Run {
    pub plan: Plan,
    pub steps: u32,
    pub cabinets: [Cabinet; MOST_CABINETS],
    pub clients: [Client; MOST_CLIENTS],
    pub slots: [Slot; MOST_SLOTS],
}
