// A reply reaches its client: it is discarded or counted, and the last one awaited ends the part.
ghost use Rattle.std.specs.Prelude.{◌≡◌, ℕ, ◌≤◌, ◌<◌};
ghost use Rattle.limits.specs.Limits.{most_clients, most_steps};
ghost use Rattle.heard.specs.Heard.{count_of, with_of};
ghost use Rattle.client.specs.Hear.{told_by, told_of, best_of, counted, ended, first_write, first_read, second, hears_of, told_counter};
ghost use Rattle.client.specs.Small.{hears_as};

use super::begin;
use cabinet::{Entry, Reading, Stamp};
use heard::Heard;
use plan::Plan;
use types::{Body, Client, Ending, Message, Work};

// What a reply says to the part that is open: the entry heard in a first part, or that the entry offered was taken or kept.
#[derive(Clone, Copy, PartialEq, Eq)]
pub enum Told {
    OfWrite(Reading, Entry),
    OfRead(Entry),
    Wrote,
    ReadBack,
}

fn told_by(w: Work, b: Body) -> Option<Told>
    ensures { result ≡ told_by w b }
{
    match (w, b) {
        (Work::FirstWrite(r), Body::TellStamp(s)) => Some(Told::OfWrite(
            r,
            Entry {
                stamp: s,
                reading: Reading::Unknown,
            },
        )),
        (Work::FirstRead, Body::TellEntry(e)) => Some(Told::OfRead(e)),
        (Work::SecondWrite, Body::Acknowledge) => Some(Told::Wrote),
        (Work::SecondRead, Body::Acknowledge) => Some(Told::ReadBack),
        _ => None,
    }
}

// What the reply says, if it is awaited.
#[tactic(auto, unfolding(crate::specs::Hear::told_of))]
fn awaited(c: &Client, m: &Message) -> Option<Told>
    ensures { result ≡ told_of c.now m.now }
{
    let open = c.operation == m.operation && begin::part(c.work) == m.part;
    let awaited = open && !c.heard.has(m.cabinet);
    if awaited {
        told_by(c.work, m.body)
    } else {
        None
    }
}

// What a reply does to its client, without the places that change: nothing, it is counted, or it ends the part.
#[derive(Clone, Copy, PartialEq, Eq)]
pub enum Hears {
    Nothing,
    Counts(Client),
    Ends(Ending, Entry, Client),
}

// A part that hears one cabinet more: its client before that, and the cabinets heard, this one among them.
#[derive(Clone, Copy)]
struct Hearing {
    plan: Plan,
    client: Client,
    heard: Heard,
    count: u8,
    ghost counted: { count ≡ count_of heard },
}

impl Hearing {
    fn of(plan: Plan, client: &Client, cabinet: u8) -> Hearing
        ensures from { (result.plan ≡ plan) × (result.client ≡ client.now) }
        ensures heard { result.heard ≡ with_of client.now.heard cabinet }
    {
        let heard = client.heard.with(cabinet);
        Hearing {
            plan,
            client: *client,
            heard,
            count: heard.count(),
        }
    }

    fn counts(self, best: Entry) -> Hears
        ensures { (i j : ℕ) → counted i j self.client self.heard best ≡ hears_as i j result }
    {
        Hears::Counts(Client {
            heard: self.heard,
            best,
            ..self.client
        })
    }

    fn ends(self, how: Ending, shown: Entry, next: Work, best: Entry) -> Hears
        ensures { (i j : ℕ) → ended i j self.client.operation how shown next best ≡ hears_as i j result }
    {
        Hears::Ends(
            how,
            shown,
            Client {
                operation: self.client.operation,
                work: next,
                heard: Heard::none(),
                best,
            },
        )
    }

    #[tactic(auto, unfolding(crate::specs::Hear::first_write))]
    fn first_write(self, i: u8, r: Reading, best: Entry) -> Hears
        requires { (i < most_clients) × (best.stamp.counter ≤ most_steps) }
        ensures { (j : ℕ) → first_write self.plan i j self.client self.heard r best ≡ hears_as i j result }
    {
        if self.plan.read <= self.count {
            let e = Entry {
                stamp: Stamp {
                    counter: best.stamp.counter + 1,
                    writer: i + 1,
                },
                reading: r,
            };
            return self.ends(Ending::Chosen, e, Work::SecondWrite, e);
        }
        self.counts(best)
    }

    #[tactic(auto, unfolding(crate::specs::Hear::first_read))]
    fn first_read(self, best: Entry) -> Hears
        ensures { (i j : ℕ) → first_read self.plan i j self.client self.heard best ≡ hears_as i j result }
    {
        if self.plan.read <= self.count {
            return self.ends(Ending::Found, best, Work::SecondRead, best);
        }
        self.counts(best)
    }

    #[tactic(auto, unfolding(crate::specs::Hear::second))]
    fn second(self, how: Ending) -> Hears
        ensures { (i j : ℕ) → second self.plan i j self.client self.heard how ≡ hears_as i j result }
    {
        if self.plan.write <= self.count {
            return self.ends(how, self.client.best, Work::Idle, Entry::FACTORY);
        }
        self.counts(self.client.best)
    }

    // The best entry of a first part that hears e.
    #[tactic(auto, unfolding(crate::specs::Hear::best_of))]
    fn best(self, e: Entry) -> Entry
        ensures { result ≡ best_of (count_of self.heard) self.client.best e }
    {
        let best = self.client.best;
        let greater = best.takes(e);
        if self.count == 1 || greater { e } else { best }
    }
}

// Client m.client, which is c, hears the message m.
#[tactic(auto, unfolding(crate::specs::Hear::hears_of))]
pub fn hear(plan: Plan, c: &Client, m: &Message) -> Hears
    requires { (m.now.client < most_clients) × (c.now.best.stamp.counter ≤ most_steps) × (told_counter m.now.body ≤ most_steps) }
    ensures { (j : ℕ) → hears_of plan j c.now m.now ≡ hears_as m.now.client j result }
{
    let part = Hearing::of(plan, c, m.cabinet);
    match awaited(c, m) {
        None => Hears::Nothing,
        Some(Told::OfWrite(r, e)) => part.first_write(m.client, r, part.best(e)),
        Some(Told::OfRead(e)) => part.first_read(part.best(e)),
        Some(Told::Wrote) => part.second(Ending::Written),
        Some(Told::ReadBack) => part.second(Ending::Read),
    }
}
