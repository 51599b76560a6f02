// One row of a rehearsal's transcript, written into a lent buffer from a place on. Each function answers the place behind its row, and leaves
// every other byte as it was. None tests for room: each requires it of its caller, who needs to look once for a whole part of rows.
#![tactic(auto)]

mod number;
mod outcome;
mod put;
mod row;

pub use row::{put_head, put_no_header, put_plan, put_refusal, put_step};

// The longest row has this many bytes, its LF among them: `18446744073709551615,0,written,255,18446744073709551615,255,open 255`. A row number
// and a counter have at most 20 digits, and a slot, a writer and minutes at most 3.
pub const ROOM: usize = 69;
