// Which steps are let in.
#![tactic(auto)]

mod admission;

pub use admission::admit;
