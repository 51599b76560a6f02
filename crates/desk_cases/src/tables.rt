// Tables of a wrong length, and damaged records: lent, the run's own, and past those lent.
use super::show;
use cabinet::Cabinet;
use desk::step_local;
use limits::MOST_CABINETS;
use run::Run;
use std::io;
use types::{Step, answer_number};

// The first `len` records are lent for one step; it is said where that left all as it was.
fn answered(
    rt: &impl Print,
    run: &Run,
    table: &[Cabinet; MOST_CABINETS],
    len: usize,
    word: &str,
) -> io::Result<()> {
    let mut after = *run;
    let mut left = *table;
    let lent = step_local(&mut after, &mut left, len, Step::Stop(1));
    let number = lent.map_or_else(|why| u8::from(why), |answer| answer_number(answer));
    show::table(rt, number, word, after == *run && left == *table)
}

fn lengths(rt: &impl Print, run: &Run) -> io::Result<()> {
    let table = &run.cabinets;
    answered(rt, run, table, 4, "four records")?;
    answered(rt, run, table, 3, "three records")?;
    answered(rt, run, table, 5, "five records")?;
    answered(rt, run, table, 0, "no records")?;
    answered(rt, run, table, MOST_CABINETS, "nine records")
}

// A record that keeps no version is damaged.
fn damage(rt: &impl Print, run: &Run) -> io::Result<()> {
    let table = run.cabinets;
    let mut lent = table;
    lent[1].kept = 0;
    answered(rt, run, &lent, 4, "a damaged record lent")?;
    let own = Run {
        cabinets: lent,
        ..*run
    };
    answered(rt, &own, &table, 4, "a damaged record of the run's own")?;
    let mut past = table;
    past[4].kept = 0;
    answered(rt, run, &past, 4, "a damaged record past those lent")
}

// The run has four cabinets.
pub fn all(rt: &impl Print) -> io::Result<()> {
    let run = run::start(4, 1, 1, 2).run;
    lengths(rt, &run)?;
    damage(rt, &run)
}
