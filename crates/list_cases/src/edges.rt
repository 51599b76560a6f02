// The edges of both calls: how many steps, how many places, damage, and tables of a wrong length.
ghost use Rattle.std.specs.Prelude.{◌≤◌};
ghost use Rattle.list_cases.specs.Sizes.{most_places, most_rows};

use super::full::{at_hand, begun, full_list, refused};
use super::told::{Desk, PLACES, Told};
use super::{calls, damage, show};
use limits::MOST_CABINETS;
use lists::MOST_LISTED;
use std::io;

// As many as the run has.
const RECORDS: usize = 4;

const EACH_1: &str = "each answered 1, nothing else changed";

const EACH_14: &str = "each answered 14, nothing else changed";

const NOTHING: &str = "nothing changed, all marks kept";

const AS_SINGLY: &str = "as singly, marks behind kept";

// The first steps of the full list, some places for their answers, and the first records of the desk, under a name. Each call is made with
// these steps alone, and with a count of them where 256 are at hand; both must come to the same.
#[derive(Clone, Copy)]
struct Edge<'a> {
    name: &'a str,
    desk: &'a Desk,
    len: usize,
    count: usize,
    places: usize,
    ghost within: { (count ≤ most_rows) × (places ≤ most_places) },
}

impl Edge<'_> {
    fn by_run(&self, rt: &impl Print, want: &Told, checked: &str) -> io::Result<()> {
        let told = calls::by_run(self.desk, &full_list()[..self.count], self.places);
        let first = calls::first_by_run(self.desk, &at_hand(), self.count, self.places);
        show::asked(rt, self.name, self.count, self.places)?;
        show::came(rt, told.number, told == *want && first == told, checked)
    }

    fn lent(&self, rt: &impl Print, want: &Told, checked: &str) -> io::Result<()> {
        let told = calls::lent(self.desk, self.len, &full_list()[..self.count], self.places);
        let first = calls::first_lent(self.desk, self.len, &at_hand(), self.count, self.places);
        show::asked(rt, self.name, self.count, self.places)?;
        show::records(rt, self.len)?;
        show::came(rt, told.number, told == *want && first == told, checked)
    }

    fn untaken(&self, rt: &impl Print, number: u8) -> io::Result<()> {
        let want = Told::kept(number, self.desk);
        self.by_run(rt, &want, NOTHING)?;
        self.lent(rt, &want, NOTHING)
    }

    fn singly(&self) -> Told {
        calls::singly(self.desk, &full_list()[..self.count])
    }

    fn as_singly(&self, rt: &impl Print) -> io::Result<()> {
        let want = self.singly();
        self.by_run(rt, &want, AS_SINGLY)?;
        self.lent(rt, &want.over_table(&self.desk.run.cabinets), AS_SINGLY)
    }
}

fn at<'a>(name: &'a str, desk: &'a Desk, len: usize, count: usize, places: usize) -> Edge<'a>
    requires { (count ≤ most_rows) × (places ≤ most_places) }
{
    Edge {
        name,
        desk,
        len,
        count,
        places,
    }
}

fn counts(rt: &impl Print, d: &Desk) -> io::Result<()> {
    at("no steps", d, RECORDS, 0, PLACES).untaken(rt, 0)?;
    at("a full list", d, RECORDS, MOST_LISTED, PLACES).as_singly(rt)?;
    at("a step too many", d, RECORDS, MOST_LISTED + 1, PLACES).untaken(rt, 16)
}

// Seven of the steps: those behind the list are not taken.
fn places(rt: &impl Print, d: &Desk) -> io::Result<()> {
    let full = MOST_LISTED;
    at("a place too few", d, RECORDS, 7, 6).untaken(rt, 16)?;
    at("just enough places", d, RECORDS, 7, 7).as_singly(rt)?;
    at("places behind", d, RECORDS, 7, PLACES).as_singly(rt)?;
    at("a full list, a place too few", d, RECORDS, full, full - 1).untaken(rt, 16)?;
    at("a full list, just enough places", d, RECORDS, full, full).as_singly(rt)
}

fn damaged(rt: &impl Print, d: &Desk) -> io::Result<()> {
    let want = Told::each(1, MOST_LISTED, d);
    let full = at("a damaged run", d, RECORDS, MOST_LISTED, PLACES);
    full.by_run(rt, &want, EACH_1)?;
    full.lent(rt, &want, EACH_1)?;
    at("a damaged run, no steps", d, 0, 0, 0).untaken(rt, 0)
}

fn damaged_record(rt: &impl Print, d: &Desk) -> io::Result<()> {
    let want = Told::each(1, MOST_LISTED, d);
    at("a damaged record", d, RECORDS, MOST_LISTED, PLACES).lent(rt, &want, EACH_1)
}

fn wrong_length(rt: &impl Print, d: &Desk, len: usize) -> io::Result<()> {
    let each = Told::each(14, MOST_LISTED, d);
    let kept = Told::kept(16, d);
    at("a wrong length", d, len, MOST_LISTED, PLACES).lent(rt, &each, EACH_14)?;
    at("a wrong length, a place too few", d, len, 7, 6).lent(rt, &kept, NOTHING)
}

pub fn all(rt: &impl Print) -> io::Result<()> {
    let d = begun();
    let told = at("a full list", &d, RECORDS, MOST_LISTED, PLACES).singly();
    show::refused(rt, MOST_LISTED, refused(&told.answers[..MOST_LISTED]))?;
    counts(rt, &d)?;
    places(rt, &d)?;
    damaged(rt, &damage::step_count(&d))?;
    damaged_record(rt, &damage::lent_record(&d))?;
    for len in [3, 5, 0, MOST_CABINETS] {
        wrong_length(rt, &d, len)?;
    }
    Ok(())
}
