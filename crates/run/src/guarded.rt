// The damage check of a whole run.
ghost use Rattle.std.specs.Prelude.{◌≡◌};
ghost use Rattle.run.specs.Undamaged.{rest_sound, undamaged};

use super::Run;
use guard::{cabinets_sound, clients_sound, slots_sound};
use limits::MOST_STEPS;
use plan::is_ruled;

impl Run {
    // All but the cabinets, whose records a desk may lend.
    #[tactic(auto, unfolding(crate::specs::Undamaged::rest_sound))]
    fn rest_sound(&self) -> bool
        ensures { result ≡ rest_sound self.now }
    {
        is_ruled(self.plan)
            && self.steps <= MOST_STEPS
            && clients_sound(&self.plan, self.steps, &self.clients)
            && slots_sound(self.plan.n, self.steps, &self.slots)
    }

    #[tactic(auto, unfolding(crate::specs::Undamaged::undamaged))]
    pub fn undamaged(&self) -> bool
        ensures { result ≡ undamaged self.now }
    {
        self.rest_sound() && cabinets_sound(&self.plan, self.steps, &self.cabinets)
    }
}
