// Three desks side by side: each piece of a list is taken singly by the first, in one go by the second, and in one go over a lent table by the
// third.
use super::told::{Desk, PLACES};
use super::{calls, damage};
use run::Run;
use types::Step;

#[derive(Clone, Copy)]
pub struct Three {
    pub first: Desk,
    pub second: Desk,
    pub third: Desk,
}

impl Three {
    // The third run's own first record is damaged, so that a call which read it would answer 1.
    pub fn of(run: &Run) -> Three {
        let desk = Desk::of(run);
        Three {
            first: desk,
            second: desk,
            third: damage::own_record(&desk),
        }
    }

    // Whether the three agree over the first `count` steps. No step may change the third run's own records.
    pub fn take_piece(&mut self, steps: &[Step], count: usize) -> bool {
        let own = self.third.run.cabinets;
        let len = self.third.run.plan.n as usize;
        let singly = calls::singly(&self.first, &steps[..count.min(steps.len())]);
        let by_run = calls::first_by_run(&self.second, steps, count, PLACES);
        let lent = calls::first_lent(&self.third, len, steps, count, PLACES);
        self.first = singly.desk;
        self.second = by_run.desk;
        self.third = lent.desk;
        by_run == singly && lent == singly.over_table(&own)
    }
}
