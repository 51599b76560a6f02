// Messages that an undamaged run may hold.
ghost use Rattle.std.specs.Prelude.{◌≡◌};
ghost use Rattle.guard.specs.All.{all_from};
ghost use Rattle.guard.specs.Damage.{request_sound, reply_sound, address_sound, slot_sound};

use super::entries;
use limits::{MOST_SLOTS, byte};
use types::{Body, Held, Message, Slot};

#[tactic(auto, unfolding(crate::specs::Damage::request_sound))]
fn request_sound(steps: u32, part: u8, b: Body) -> bool
    ensures { result ≡ request_sound steps part b }
{
    match (part, b) {
        (1, Body::AskStamp | Body::AskEntry) => true,
        (2, Body::Offer(e)) => entries::entry_sound(steps, e),
        _ => false,
    }
}

#[tactic(auto, unfolding(crate::specs::Damage::reply_sound))]
fn reply_sound(steps: u32, part: u8, b: Body) -> bool
    ensures { result ≡ reply_sound steps part b }
{
    match (part, b) {
        (1, Body::TellStamp(s)) => entries::stamp_sound(steps, s),
        (1, Body::TellEntry(e)) => entries::entry_sound(steps, e),
        (2, Body::Acknowledge) => true,
        _ => false,
    }
}

#[tactic(auto, unfolding(crate::specs::Damage::address_sound))]
fn address_sound(n: u8, steps: u32, m: &Message) -> bool
    ensures { result ≡ address_sound n steps m.now }
{
    m.operation <= steps && m.client < byte::MOST_CLIENTS && m.cabinet < n
}

#[tactic(auto, unfolding(crate::specs::Damage::slot_sound))]
fn slot_sound(n: u8, steps: u32, t: &Slot) -> bool
    ensures { result ≡ slot_sound n steps 0 t.now }
{
    match &t.held {
        Held::Empty => true,
        Held::Request(m) => address_sound(n, steps, m) && request_sound(steps, m.part, m.body),
        Held::Reply(m) => address_sound(n, steps, m) && reply_sound(steps, m.part, m.body),
    }
}

pub fn slots_sound(n: u8, steps: u32, slots: &[Slot; MOST_SLOTS]) -> bool
    ensures { result ≡ all_from (slot_sound n steps) 0 slots.now }
{
    slots.iter().all(|t| slot_sound(n, steps, t))
}
