// Planning a fresh run.
ghost use Rattle.std.specs.Prelude.{◌≡◌};
ghost use Rattle.run.specs.Start.{fresh_run, start_of};

use super::Run;
use cabinet::{Cabinet, Entry};
use heard::Heard;
use limits::{MOST_CABINETS, MOST_CLIENTS, MOST_SLOTS};
use plan::{Plan, Planned, Profile, choose};
use types::{Client, Held, Slot, Work};

// A refusal, too, comes back with a run.
#[derive(Clone, Copy, PartialEq, Eq)]
pub struct Started {
    pub planned: Planned,
    pub run: Run,
}

impl Run {
    #[tactic(auto, unfolding(crate::specs::Start::fresh_run))]
    fn fresh(plan: Plan) -> Run
        ensures { result ≡ fresh_run plan }
    {
        let client = Client {
            operation: 0,
            work: Work::Idle,
            heard: Heard::none(),
            best: Entry::FACTORY,
        };
        Run {
            plan,
            steps: 0,
            cabinets: [Cabinet::fresh(); MOST_CABINETS],
            clients: [client; MOST_CLIENTS],
            slots: [Slot { held: Held::Empty }; MOST_SLOTS],
        }
    }
}

// The plan 2,0,0,0, whose fresh run comes back with a refusal.
const SMALLEST: Plan = Plan {
    n: 2,
    k: 0,
    r: 0,
    b: 0,
    profile: Profile::Forgetful,
    write: 2,
    read: 1,
    stores: 0,
};

#[tactic(auto, unfolding(crate::specs::Start::start_of))]
pub fn start(n: u64, k: u64, r: u64, b: u64) -> Started
    ensures { result ≡ start_of n k r b }
{
    let planned = choose(n, k, r, b);
    Started {
        planned,
        run: Run::fresh(planned.unwrap_or(SMALLEST)),
    }
}
