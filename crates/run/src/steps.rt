// One step of a run, by its kind. The run is changed in place: to hand it on would copy its five kilobytes.
#![tactic(auto, using(crate::proofs::FitLaws::in_run), unfolding(crate::specs::Steps::decide_of, crate::specs::Steps::client_at, crate::specs::Steps::slot_at, crate::specs::Steps::cabinet_at, crate::specs::Steps::changed, crate::specs::Steps::done_at, server::specs::Deeds::deed_of, server::specs::Deeds::rolls_of))]

ghost use Rattle.std.specs.Prelude.{◌≡◌, true, ◌<◌};
ghost use Rattle.limits.specs.Limits.{most_cabinets, most_clients, most_slots};
ghost use Rattle.run.specs.Names.{Asked, Held, Ok};
ghost use Rattle.run.specs.Steps.{slot_at, stepped_of, step_of};
ghost use Rattle.run.specs.Undamaged.{undamaged};

use super::Run;
use super::gather::{is_empty, others_marked, sight};
use admit::admit;
use cabinet::has_version;
use client::hear::hear;
use client::{Hears, asks, opens, quits};
use server::{Back, answer, forgets, is_down, may_roll, reply};
use types::{Answer, Asked, Body, Held, Message, Outcome, Refusal, Slot, Step, Work};

const EMPTY: Slot = Slot { held: Held::Empty };

impl Run {
    pub fn take(&mut self, s: Step) -> Answer
        ensures { record { answer = result; run = self.new } ≡ step_of self.old s }
    {
        let sound = self.undamaged();
        self.go(s, sound)
    }

    // The step behind its damage check, for a caller that looks at the run once and takes many.
    pub fn go(&mut self, s: Step, sound: bool) -> Answer
        requires { sound ≡ undamaged self.old }
        ensures { record { answer = result; run = self.new } ≡ step_of self.old s }
    {
        if !sound {
            return Err(Refusal::Damaged);
        }
        self.by_kind(s)
    }

    fn by_kind(&mut self, s: Step) -> Answer
        requires { undamaged self.old ≡ true }
        ensures { record { answer = result; run = self.new } ≡ step_of self.old s }
    {
        match admit(self.plan.n, self.steps, s)? {
            Asked::Begins(c, w) => self.begin(c, w),
            Asked::Leaves(c) => self.leave(c),
            Asked::Sends(c, p) => self.send(c, p),
            Asked::Delivers(j) => self.deliver(j),
            Asked::Loses(j) => self.lose(j),
            Asked::Stops(p) => self.stop(p),
            Asked::Restarts(p) => self.restart(p),
            Asked::RollsBack(p, j) => self.roll_back(p, j),
        }
    }

    fn begin(&mut self, c: u8, w: Work) -> Answer
        requires whole { undamaged self.old ≡ true }
        requires place { c < most_clients }
        ensures { record { answer = result; run = self.new } ≡ stepped_of self.old (Asked.Begins c w) }
    {
        self.clients[c as usize] = opens(&self.clients[c as usize], w)?;
        self.steps += 1;
        Ok(Outcome::Begun)
    }

    fn leave(&mut self, c: u8) -> Answer
        requires whole { undamaged self.old ≡ true }
        requires place { c < most_clients }
        ensures { record { answer = result; run = self.new } ≡ stepped_of self.old (Asked.Leaves c) }
    {
        self.clients[c as usize] = quits(&self.clients[c as usize])?;
        self.steps += 1;
        Ok(Outcome::Left)
    }

    fn send(&mut self, c: u8, p: u8) -> Answer
        requires whole { undamaged self.old ≡ true }
        requires place { c < most_clients }
        ensures { record { answer = result; run = self.new } ≡ stepped_of self.old (Asked.Sends c p) }
    {
        let request = asks(c, p, &self.clients[c as usize])?;
        let j = self.first_free().ok_or(Refusal::Full)?;
        self.slots[j as usize] = request;
        self.steps += 1;
        Ok(Outcome::Sent(j + 1))
    }

    fn deliver(&mut self, j: u8) -> Answer
        requires whole { undamaged self.old ≡ true }
        requires place { j < most_slots }
        ensures { record { answer = result; run = self.new } ≡ stepped_of self.old (Asked.Delivers j) }
    {
        match self.slots[j as usize].held {
            Held::Empty => Err(Refusal::NoMessage),
            Held::Request(m) => Ok(self.request(j, &m)),
            Held::Reply(m) => Ok(self.reply(j, &m)),
        }
    }

    // A request reaches its cabinet. A record is looked at whole only where it changes.
    fn request(&mut self, j: u8, m: &Message) -> Outcome
        requires whole { undamaged self.old ≡ true }
        requires place { j < most_slots }
        requires held { (slot_at self.old j).held ≡ Held.Request m.now }
        ensures { record { answer = Ok result; run = self.new } ≡ stepped_of self.old (Asked.Delivers j) }
    {
        let k = &mut self.cabinets[m.cabinet as usize];
        self.steps += 1;
        match answer(m, &sight(k)) {
            Back::Silent => {
                self.slots[j as usize] = EMPTY;
                Outcome::Unanswered(j + 1)
            }
            Back::Says(b) => {
                self.slots[j as usize] = reply(m, b);
                Outcome::Answered(j + 1)
            }
            Back::Weighs(e) => {
                k.offer(m.cabinet < self.plan.stores, e);
                self.slots[j as usize] = reply(m, Body::Acknowledge);
                Outcome::Answered(j + 1)
            }
        }
    }

    // A reply reaches its client.
    fn reply(&mut self, j: u8, m: &Message) -> Outcome
        requires whole { undamaged self.old ≡ true }
        requires place { j < most_slots }
        requires held { (slot_at self.old j).held ≡ Held.Reply m.now }
        ensures { record { answer = Ok result; run = self.new } ≡ stepped_of self.old (Asked.Delivers j) }
    {
        let c = &mut self.clients[m.client as usize];
        self.slots[j as usize] = EMPTY;
        self.steps += 1;
        match hear(self.plan, c, m) {
            Hears::Nothing => Outcome::Discarded(j + 1),
            Hears::Counts(next) => {
                *c = next;
                Outcome::Counted(j + 1)
            }
            Hears::Ends(how, shown, next) => {
                *c = next;
                Outcome::Ended(how, j + 1, shown)
            }
        }
    }

    fn lose(&mut self, j: u8) -> Answer
        requires whole { undamaged self.old ≡ true }
        requires place { j < most_slots }
        ensures { record { answer = result; run = self.new } ≡ stepped_of self.old (Asked.Loses j) }
    {
        if is_empty(&self.slots[j as usize]) {
            return Err(Refusal::NoMessage);
        }
        self.slots[j as usize] = EMPTY;
        self.steps += 1;
        Ok(Outcome::Lost(j + 1))
    }

    fn stop(&mut self, p: u8) -> Answer
        requires whole { undamaged self.old ≡ true }
        requires place { p < most_cabinets }
        ensures { record { answer = result; run = self.new } ≡ stepped_of self.old (Asked.Stops p) }
    {
        let k = &mut self.cabinets[p as usize];
        if is_down(k.power) {
            return Err(Refusal::IsDown);
        }
        k.stop();
        self.steps += 1;
        Ok(Outcome::Stopped)
    }

    fn restart(&mut self, p: u8) -> Answer
        requires whole { undamaged self.old ≡ true }
        requires place { p < most_cabinets }
        ensures { record { answer = result; run = self.new } ≡ stepped_of self.old (Asked.Restarts p) }
    {
        self.cabinets[p as usize].restart(p < self.plan.stores, forgets(self.plan.profile));
        self.steps += 1;
        Ok(Outcome::Restarted)
    }

    fn roll_back(&mut self, p: u8, j: u8) -> Answer
        requires whole { undamaged self.old ≡ true }
        requires place { p < most_cabinets }
        ensures { record { answer = result; run = self.new } ≡ stepped_of self.old (Asked.RollsBack p j) }
    {
        let stored = p < self.plan.stores;
        let k = &self.cabinets[p as usize];
        if !has_version(stored, k.present().stamp, k.kept, j) {
            return Err(Refusal::NoVersion);
        }
        if !may_roll(k.marked, others_marked(p, &self.cabinets), self.plan.r) {
            return Err(Refusal::TooMany);
        }
        self.cabinets[p as usize].rollback(stored, j);
        self.steps += 1;
        Ok(Outcome::RolledBack)
    }
}
