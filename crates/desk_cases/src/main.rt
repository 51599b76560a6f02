// Takes every list that its arguments name through both entrances, a run's own records and a lent table, and says whether they agree at each
// step; then tables of a wrong length and damaged records.
#![tactic(auto)]

mod both;
mod list;
mod show;
mod tables;

use cases::List;
use std::rt::Files;
use std::{env, io};

fn one(rt: &(impl Files + Print + Eprint), path: &str) -> io::Result<()> {
    match List::open(rt, path) {
        Ok(list) => show::list(rt, path, list::compare(list.bytes())),
        Err(e) => eprintln!(rt; "list: {e}"),
    }
}

fn main(rt: HostRuntime) -> io::Result<()> {
    for path in env::args(&rt)?.skip(1) {
        one(&rt, path.as_str())?;
    }
    tables::all(&rt)
}
