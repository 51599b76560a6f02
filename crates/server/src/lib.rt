// The cabinet's side of a step: a request reaches it, or it stops, restarts or rolls back. One cabinet and one message at a time.
#![tactic(auto)]

mod deed;
mod request;

pub use deed::{forgets, is_down, may_roll};
pub use request::{Back, answer, reply};
