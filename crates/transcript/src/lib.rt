// The rehearsal of a step list: a machine that is fed the bytes of an input in parts of any size, and puts what it says into a lent buffer.
#![tactic(auto)]

ghost use Rattle.std.specs.Prelude.{◌≡◌, true};
ghost use Rattle.transcript.specs.Phases.{sound_in};

mod answers;
mod bytes;
mod ends;
mod line;

use run::Run;

#[derive(Clone, Copy, PartialEq, Eq)]
pub enum Phase {
    Header,
    Planning,
    Running,
    Ended,
}

// What is kept from part to part: a row's bytes so far and how many they are (MOST_LINE + 1: too many), the phase, the next row's number, and the
// run, which is changed in place, being five kilobytes. Where steps are due it is undamaged, so that no step is checked again.
#[derive(Clone, Copy)]
pub struct Rehearsal {
    pub line: [u8; MOST_LINE],
    pub len: usize,
    pub phase: Phase,
    pub row: u64,
    pub run: Run,
    ghost sound: { sound_in phase run ≡ true },
}

// The bytes that are kept of a row: the longest row, and a CR.
pub const MOST_LINE: usize = text::MOST_BYTES + 1;
