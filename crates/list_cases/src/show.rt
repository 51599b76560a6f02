// What the program prints: a line for each list and size of pieces, and one for each edge.
use super::tally::Tally;
use std::io;

pub fn no_plan(rt: &impl Print, name: &str) -> io::Result<()> {
    println!(rt; "{name}: NO PLAN")
}

pub fn list(rt: &impl Print, name: &str, most: usize, t: Tally) -> io::Result<()> {
    let steps = t.steps;
    print!(rt; "{name}: {steps} steps in pieces of {most}")?;
    match t.differs {
        None => println!(rt; ", agree"),
        Some(piece) => println!(rt; ", PIECE {piece} DIFFERS"),
    }
}

pub fn asked(rt: &impl Print, name: &str, count: usize, places: usize) -> io::Result<()> {
    print!(rt; "{name} ({count} steps, {places} places")
}

pub fn records(rt: &impl Print, len: usize) -> io::Result<()> {
    print!(rt; ", {len} records lent")
}

// What was checked is said only where it holds.
pub fn came(rt: &impl Print, n: u8, holds: bool, checked: &str) -> io::Result<()> {
    print!(rt; "): {n}, ")?;
    if holds {
        println!(rt; "{checked}")
    } else {
        println!(rt; "DIFFERS")
    }
}

pub fn refused(rt: &impl Print, count: usize, n: usize) -> io::Result<()> {
    println!(rt; "the edges' list: {count} steps, {n} refused")
}
