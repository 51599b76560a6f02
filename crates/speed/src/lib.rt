// The step's speed, for a C program to measure: one list of steps over and over, singly with the damage check, in one go, and the check alone.
#![tactic(auto)]

ghost use Rattle.std.specs.Prelude.{◌<◌, length};

use cabinet::Reading;
use lists::{MOST_LISTED, take_list};
use run::{Run, start};
use std::array;
use types::Step;

// How many steps one round of the list has.
pub const ROUND: usize = 24;

// A write by client 1 to three of four cabinets with stores, a stop, a restart, a refused send, a rollback, and a loss that is refused.
const LIST: [Step; ROUND] = [
    Step::Write(1, Reading::Open(6)),
    Step::Send(1, 1),
    Step::Deliver(1),
    Step::Deliver(1),
    Step::Send(1, 2),
    Step::Deliver(1),
    Step::Deliver(1),
    Step::Send(1, 3),
    Step::Deliver(1),
    Step::Deliver(1),
    Step::Send(1, 1),
    Step::Deliver(1),
    Step::Deliver(1),
    Step::Send(1, 2),
    Step::Deliver(1),
    Step::Deliver(1),
    Step::Send(1, 3),
    Step::Deliver(1),
    Step::Deliver(1),
    Step::Stop(4),
    Step::Restart(4),
    Step::Send(1, 1),
    Step::Rollback(1, 1),
    Step::Lose(1),
];

// As many rounds as a list may have, the last one cut short.
fn whole_list() -> [Step; MOST_LISTED] {
    array::from_fn(|i| LIST[i % ROUND])
}

fn fresh() -> Run {
    start(4, 1, 1, 2).run
}

// So many steps of a list, over and over, each by itself; how many were accepted.
fn singly(steps: &[Step], turns: usize) -> u32
    requires { 0 < length steps.now }
{
    let mut run = fresh();
    for i in 0..turns {
        let _ = run.take(steps[i % steps.len()]);
    }
    run.steps
}

#[unsafe(no_mangle)]
pub extern "C" fn speed_singly(turns: usize) -> u32 {
    singly(&whole_list(), turns)
}

#[unsafe(no_mangle)]
pub extern "C" fn speed_take(turns: usize) -> u32 {
    singly(&LIST, turns)
}

// So many lists, each in one go; how many steps were accepted.
#[unsafe(no_mangle)]
pub extern "C" fn speed_lists(lists: usize) -> u32 {
    let steps = whole_list();
    let mut run = fresh();
    let mut answers = [0; MOST_LISTED];
    for _ in 0..lists {
        let _ = take_list(&mut run, &steps, &mut answers);
    }
    run.steps
}

// The damage check so many times, after each step of one round of the list and then on the run that it leaves; how often it passed.
#[unsafe(no_mangle)]
pub extern "C" fn speed_check(turns: usize) -> usize {
    let mut run = fresh();
    let mut passed = 0;
    for i in 0..turns {
        if i < ROUND {
            let _ = run.take(LIST[i]);
        }
        if run.undamaged() {
            passed += 1;
        }
    }
    passed
}
