// The two entrances side by side: each step is taken by a run on its own records and by one over a lent table, and all that comes of it is compared.
use cabinet::Cabinet;
use desk::step_local;
use limits::MOST_CABINETS;
use run::Run;
use types::Step;

// The first run steps on its own records, the second over the table. No step may change the second's own records.
#[derive(Clone, Copy)]
pub struct Both {
    pub first: Run,
    pub second: Run,
    pub table: [Cabinet; MOST_CABINETS],
    pub own: [Cabinet; MOST_CABINETS],
}

#[derive(Clone, Copy)]
pub struct Compared {
    pub accepted: bool,
    pub same: bool,
}

impl Both {
    // The second run's own first record is damaged, so that an entrance which read it would answer 1.
    pub fn of(run: &Run) -> Both {
        let mut second = *run;
        second.cabinets[0].kept = 0;
        Both {
            first: *run,
            second,
            table: run.cabinets,
            own: second.cabinets,
        }
    }

    // The plan, the clients, the slots and the steps of the two; the second run's own as they were; the lent records beside the first run's own.
    fn agree(&self) -> bool {
        let as_first = Run {
            cabinets: self.own,
            ..self.first
        };
        self.second == as_first && self.table == self.first.cabinets
    }

    pub fn step(&mut self, s: Step) -> Compared {
        let n = self.first.plan.n as usize;
        let answer = self.first.take(s);
        let lent = step_local(&mut self.second, &mut self.table, n, s);
        Compared {
            accepted: answer.is_ok(),
            same: lent == Ok(answer) && self.agree(),
        }
    }
}
