// Takes every list that its arguments name in pieces, singly, in one go by a run and in one go over a lent table, and says whether the three
// agree after each piece; then the edges of both calls, and the example of docs/DESKS.md.
#![tactic(auto)]

mod calls;
mod damage;
mod edges;
mod example;
mod full;
mod list;
mod piece;
mod show;
mod tally;
mod three;
mod told;

use cases::List;
use std::rt::Files;
use std::{env, io};

fn one(rt: &(impl Files + Print + Eprint), path: &str) -> io::Result<()> {
    match List::open(rt, path) {
        Ok(list) => list::compare(rt, path, list.bytes()),
        Err(e) => eprintln!(rt; "list: {e}"),
    }
}

fn main(rt: HostRuntime) -> io::Result<()> {
    for path in env::args(&rt)?.skip(1) {
        one(&rt, path.as_str())?;
    }
    edges::all(&rt)?;
    example::show(&rt)
}
