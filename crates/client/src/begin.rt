// A client begins an operation, sends a request, or leaves.
ghost use Rattle.std.specs.Prelude.{◌≡◌, ℕ, ◌≤◌};
ghost use Rattle.limits.specs.Limits.{most_steps};
ghost use Rattle.types.specs.declared.answer.Outcome.{Outcome};
ghost use Rattle.client.specs.Begin.{standing_of, part_of, begins_of, request_body, request_slot, sends_of, leaves_of};
ghost use Rattle.client.specs.Small.{moved_as, asking_as};

use cabinet::Entry;
use heard::Heard;
use types::{Body, Client, Held, Message, Refusal, Slot, Work};

// What the checks 4, 5 and 6 ask of a client.
#[derive(Clone, Copy, PartialEq, Eq)]
pub enum Standing {
    Free,
    Away,
    Busy,
}

fn stands(w: Work) -> Standing
    ensures { result ≡ standing_of w }
{
    match w {
        Work::Idle => Standing::Free,
        Work::Gone => Standing::Away,
        Work::FirstWrite(_) | Work::FirstRead | Work::SecondWrite | Work::SecondRead =>
            Standing::Busy,
    }
}

pub fn part(w: Work) -> u8
    ensures { result ≡ part_of w }
{
    match w {
        Work::Idle | Work::Gone => 0,
        Work::FirstWrite(_) | Work::FirstRead => 1,
        Work::SecondWrite | Work::SecondRead => 2,
    }
}

// The client as it is afterwards.
#[tactic(auto, unfolding(crate::specs::Begin::begins_of))]
pub fn opens(c: &Client, w: Work) -> Result<Client, Refusal>
    requires { c.now.operation ≤ most_steps }
    ensures { (i : ℕ) → begins_of i c.now w ≡ moved_as Outcome.Begun i result }
{
    match stands(c.work) {
        Standing::Free => Ok(Client {
            operation: c.operation + 1,
            work: w,
            heard: Heard::none(),
            best: Entry::FACTORY,
        }),
        Standing::Away => Err(Refusal::HasLeft),
        Standing::Busy => Err(Refusal::NotIdle),
    }
}

// No other than the four that are busy is asked.
fn request_body(w: Work, best: Entry) -> Body
    ensures { result ≡ request_body w best }
{
    match w {
        Work::Idle | Work::Gone => Body::Acknowledge,
        Work::FirstWrite(_) => Body::AskStamp,
        Work::FirstRead => Body::AskEntry,
        Work::SecondWrite | Work::SecondRead => Body::Offer(best),
    }
}

fn request(i: u8, k: u8, c: &Client) -> Slot
    ensures { result ≡ request_slot i k c.now }
{
    Slot {
        held: Held::Request(Message {
            operation: c.operation,
            client: i,
            part: part(c.work),
            cabinet: k,
            body: request_body(c.work, c.best),
        }),
    }
}

// What the lowest free slot then has. Whether one is free only the owner of the run knows.
#[tactic(auto, unfolding(crate::specs::Begin::sends_of))]
pub fn asks(i: u8, k: u8, c: &Client) -> Result<Slot, Refusal>
    ensures { (free : ℕ) → sends_of i k c.now free ≡ asking_as free result }
{
    match stands(c.work) {
        Standing::Free => Err(Refusal::IsIdle),
        Standing::Away => Err(Refusal::HasLeft),
        Standing::Busy => Ok(request(i, k, c)),
    }
}

#[tactic(auto, unfolding(crate::specs::Begin::leaves_of))]
pub fn quits(c: &Client) -> Result<Client, Refusal>
    ensures { (i : ℕ) → leaves_of i c.now ≡ moved_as Outcome.Left i result }
{
    match stands(c.work) {
        Standing::Free | Standing::Busy => Ok(Client {
            work: Work::Gone,
            heard: Heard::none(),
            best: Entry::FACTORY,
            ..*c
        }),
        Standing::Away => Err(Refusal::HasLeft),
    }
}
