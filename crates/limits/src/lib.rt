// The limits of a line, each with its reason. They have the width of an array's length, or of the number that is counted; `byte` has those that
// a number in a step, a message or a record is held against.
#![tactic(auto)]

pub mod byte;

// A line has at least its two end stations.
pub const FEWEST_CABINETS: usize = 2;
// The longest line that is planned: a run has a record for each cabinet, and a heard set a bit.
pub const MOST_CABINETS: usize = 9;
// The boards and desks of a line. A writer is a client's number, or 0 for the factory.
pub const MOST_CLIENTS: usize = 8;
// The messages that are under way at a time. A send that finds no free slot is refused.
pub const MOST_SLOTS: usize = 64;
// What a store keeps, the present version included.
pub const MOST_VERSIONS: usize = 8;
// The j of a rollback that stands for the factory entry, and the greatest j: no store keeps so many versions behind the present one.
pub const TO_FACTORY: usize = MOST_VERSIONS;
// The accepted steps of a run. No counter and no operation number exceeds them, so that none wraps.
pub const MOST_STEPS: u32 = 1_000_000;
// The longest wait that a board shows: four hours.
pub const MOST_MINUTES: u8 = 240;
