// Steps taken singly, in one go by a run, and in one go over a lent table; the places lent stand in front of a marked buffer. The steps of a list
// are handed over as they are, or as the first of those at hand.
ghost use Rattle.std.specs.Prelude.{◌≤◌};
ghost use Rattle.list_cases.specs.Sizes.{most_places};

use super::told::{Desk, Told};
use desk_lists::{list_lent, list_local};
use limits::MOST_CABINETS;
use lists::{Whole, take_first, take_list};
use types::{Step, answer_number};

fn number_of(whole: Whole) -> u8 {
    whole.map_or_else(|why| u8::from(why), |()| 0)
}

pub fn singly(desk: &Desk, steps: &[Step]) -> Told {
    let mut told = Told::kept(0, desk);
    for (s, answer) in steps.iter().zip(told.answers.iter_mut()) {
        *answer = answer_number(told.desk.run.take(*s));
    }
    told
}

pub fn by_run(desk: &Desk, steps: &[Step], places: usize) -> Told
    requires { places ≤ most_places }
{
    let mut told = Told::kept(0, desk);
    let whole = take_list(&mut told.desk.run, steps, &mut told.answers[..places]);
    told.number = number_of(whole);
    told
}

pub fn first_by_run(desk: &Desk, steps: &[Step], count: usize, places: usize) -> Told
    requires { places ≤ most_places }
{
    let mut told = Told::kept(0, desk);
    let whole = take_first(
        &mut told.desk.run,
        steps,
        count,
        &mut told.answers[..places],
    );
    told.number = number_of(whole);
    told
}

pub fn lent(desk: &Desk, len: usize, steps: &[Step], places: usize) -> Told
    requires { places ≤ most_places }
{
    let mut told = Told::kept(0, desk);
    let whole = list_lent(
        &mut told.desk.run,
        &mut told.desk.table[..len.min(MOST_CABINETS)],
        steps,
        &mut told.answers[..places],
    );
    told.number = number_of(whole);
    told
}

pub fn first_lent(desk: &Desk, len: usize, steps: &[Step], count: usize, places: usize) -> Told
    requires { places ≤ most_places }
{
    let mut told = Told::kept(0, desk);
    let whole = list_local(
        &mut told.desk.run,
        &mut told.desk.table,
        len,
        steps,
        count,
        &mut told.answers[..places],
    );
    told.number = number_of(whole);
    told
}
