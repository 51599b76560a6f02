// A list in one go, as docs/DESKS.md shows it: one write, and the numbers of the answers.
use cabinet::Reading;
use lists::{NoRoom, take_list};
use std::io;
use types::Step;

const STEPS: usize = 14;

// Each part sends to cabinets 1 and 2; a request's slot has its reply afterwards, so that each slot is delivered twice.
const MORNING: [Step; STEPS] = [
    Step::Write(1, Reading::Closed),
    Step::Send(1, 1),
    Step::Send(1, 2),
    Step::Deliver(1),
    Step::Deliver(1),
    Step::Deliver(2),
    Step::Deliver(2),
    Step::Send(1, 1),
    Step::Send(1, 2),
    Step::Deliver(1),
    Step::Deliver(1),
    Step::Deliver(2),
    Step::Deliver(2),
    Step::Send(1, 3),
];

pub fn show(rt: &impl Print) -> io::Result<()> {
    let mut run = run::start(3, 1, 0, 0).run;
    let mut answers = [0; STEPS];
    print!(rt; "a list of 14 steps:")?;
    match take_list(&mut run, &MORNING, &mut answers) {
        Ok(()) => {
            for answer in answers {
                print!(rt; " {answer}")?;
            }
        }
        Err(NoRoom) => print!(rt; " no room")?,
    }
    println!(rt; "")
}
