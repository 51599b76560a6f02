// A request reaches its cabinet.
ghost use Rattle.std.specs.Prelude.{◌≡◌, ℕ};
ghost use Rattle.server.specs.Requests.{reply_slot, answers_of, back_as};

use cabinet::{Entry, Power};
use types::{Body, Held, Message, Sight, Slot};

// What a request that reaches its cabinet comes to, without the slot: no answer, a reply's body, or an entry to weigh and acknowledge.
#[derive(Clone, Copy)]
pub enum Back {
    Silent,
    Says(Body),
    Weighs(Entry),
}

// The reply to m with this body.
pub fn reply(m: &Message, b: Body) -> Slot
    ensures { result ≡ reply_slot m.now b }
{
    Slot {
        held: Held::Reply(Message { body: b, ..*m }),
    }
}

// The request m reaches its cabinet, of which k is seen: one that is down says nothing, and one that is stale tells nothing of what it holds.
#[tactic(auto, unfolding(crate::specs::Requests::answers_of))]
pub fn answer(m: &Message, k: &Sight) -> Back
    ensures { (j : ℕ) → answers_of j m.now k.now ≡ back_as j m.now result }
{
    match (k.power, &m.body) {
        (Power::Up, Body::AskStamp) => Back::Says(Body::TellStamp(k.present.stamp)),
        (Power::Up, Body::AskEntry) => Back::Says(Body::TellEntry(k.present)),
        (Power::Up | Power::Stale, Body::Offer(e)) => Back::Weighs(*e),
        _ => Back::Silent,
    }
}
