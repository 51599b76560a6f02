// Clients that an undamaged run may hold.
ghost use Rattle.std.specs.Prelude.{◌≡◌};
ghost use Rattle.guard.specs.All.{all_from};
ghost use Rattle.guard.specs.Damage.{heard_sound, work_sound, client_sound};

use super::entries;
use heard::Heard;
use limits::MOST_CLIENTS;
use plan::Plan;
use types::{Client, Work};

#[tactic(auto, unfolding(crate::specs::Damage::heard_sound))]
fn heard_sound(n: u8, quorum: u8, h: Heard) -> bool
    ensures { result ≡ heard_sound n quorum h }
{
    h.within(n) && h.count() < quorum
}

fn work_sound(plan: &Plan, h: Heard, w: Work) -> bool
    ensures { result ≡ work_sound plan.now h w }
{
    match w {
        Work::Idle | Work::Gone => true,
        Work::FirstWrite(r) => r.in_range() && heard_sound(plan.n, plan.read, h),
        Work::FirstRead => heard_sound(plan.n, plan.read, h),
        Work::SecondWrite | Work::SecondRead => heard_sound(plan.n, plan.write, h),
    }
}

#[tactic(auto, unfolding(crate::specs::Damage::client_sound))]
fn client_sound(plan: &Plan, steps: u32, c: &Client) -> bool
    ensures { result ≡ client_sound plan.now steps 0 c.now }
{
    c.operation <= steps && entries::entry_sound(steps, c.best) && work_sound(plan, c.heard, c.work)
}

pub fn clients_sound(plan: &Plan, steps: u32, clients: &[Client; MOST_CLIENTS]) -> bool
    ensures { result ≡ all_from (client_sound plan.now steps) 0 clients.now }
{
    clients.iter().all(|c| client_sound(plan, steps, c))
}
