// The damage check of a run's parts: its cabinets, its clients and its slots.
#![tactic(auto)]

mod cabinets;
mod clients;
mod entries;
mod slots;

pub use cabinets::{cabinets_sound, record_sound};
pub use clients::clients_sound;
pub use slots::slots_sound;
