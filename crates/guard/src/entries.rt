// Stamps and entries that an undamaged run may hold.
ghost use Rattle.std.specs.Prelude.{◌≡◌};
ghost use Rattle.guard.specs.Damage.{stamp_sound, entry_sound};

use cabinet::{Entry, Stamp};
use limits::byte;

#[tactic(auto, unfolding(crate::specs::Damage::stamp_sound))]
pub fn stamp_sound(steps: u32, s: Stamp) -> bool
    ensures { result ≡ stamp_sound steps s }
{
    s.counter <= steps as u64 && s.writer <= byte::MOST_CLIENTS
}

#[tactic(auto, unfolding(crate::specs::Damage::entry_sound))]
pub fn entry_sound(steps: u32, e: Entry) -> bool
    ensures { result ≡ entry_sound steps e }
{
    stamp_sound(steps, e.stamp) && e.reading.in_range()
}
