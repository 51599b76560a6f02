// What the programs over lists share: the bytes of a list, the run that its head plans, and its rows.
#![tactic(auto)]

mod bytes;
mod head;
mod line;

pub use bytes::List;
pub use head::{Begun, begin};
pub use line::{Line, line_from};
