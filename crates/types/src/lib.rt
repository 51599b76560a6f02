// The parts of a run: messages and their slots, clients, steps, and what a step is answered. Types alone; what is done with them stands above.
#![tactic(auto)]

mod answer;
mod client;
mod message;
mod step;

pub use answer::{Answer, Ending, Outcome, Refusal, Sight, answer_number};
pub use client::{Client, Work};
pub use message::{Body, Held, Message, Slot};
pub use step::{Asked, Step};
