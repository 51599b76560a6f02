// What comes of a call: the number, every place of a marked buffer, and the desk afterwards.
use cabinet::Cabinet;
use limits::MOST_CABINETS;
use run::Run;

pub const PLACES: usize = 264;
// No answer has this number, so a place that is written shows.
pub const MARK: u8 = 170;

// A run, and records beside it, which only the lent call looks at.
#[derive(Clone, Copy, PartialEq, Eq)]
pub struct Desk {
    pub run: Run,
    pub table: [Cabinet; MOST_CABINETS],
}

impl Desk {
    // The records beside the run are copies of its own.
    pub fn of(run: &Run) -> Desk {
        Desk {
            run: *run,
            table: run.cabinets,
        }
    }
}

// The marks behind the answers are compared with them.
#[derive(Clone, Copy, PartialEq, Eq)]
pub struct Told {
    pub number: u8,
    pub answers: [u8; PLACES],
    pub desk: Desk,
}

impl Told {
    // A call that takes nothing and writes nothing.
    pub fn kept(number: u8, desk: &Desk) -> Told {
        Told {
            number,
            answers: [MARK; PLACES],
            desk: *desk,
        }
    }

    // A call that answers each of `count` steps alike, and takes none.
    pub fn each(number: u8, count: usize, desk: &Desk) -> Told {
        let mut told = Told::kept(0, desk);
        told.answers[..count.min(PLACES)].fill(number);
        told
    }

    // The same over a lent table: the records stand in the table, and the run's own are as they were.
    pub fn over_table(&self, own: &[Cabinet; MOST_CABINETS]) -> Told {
        let run = Run {
            cabinets: *own,
            ..self.desk.run
        };
        Told {
            desk: Desk {
                run,
                table: self.desk.run.cabinets,
            },
            ..*self
        }
    }
}
