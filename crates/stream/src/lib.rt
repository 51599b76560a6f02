// The rehearsal of what a reader gives, on a writer: read, feed, write, in parts, so that memory does not grow with the input.
#![tactic(auto)]

ghost use Rattle.std.specs.Prelude.{◌≡◌, ◌+◌, ◌≤◌, ◌<◌, ◌^◌, length, take};
ghost use Rattle.std.specs.Io.KnownBytes.{Consumes};
ghost use Rattle.stream.specs.Buffers.{part_room, out_room};
ghost use Rattle.stream.specs.Moved.{Turned, Rehearsed};
ghost use Rattle.transcript.specs.Machine.{mach_of, fresh};

use print::ROOM;
use std::io;
use std::io::{Read, Write};
use transcript::Rehearsal;

#[cfg(test)]
mod tests;

// What one read takes at most. Smaller parts cost calls to read and write; larger ones cost memory.
pub const PART_ROOM: usize = 32_768;
// What is said of it: a row for each of its bytes at most, and a row more, as `Rehearsal::feed` asks.
pub const OUT_ROOM: usize = ROOM * (PART_ROOM + 1);
// Nothing says that an input ends, so the loop counts its reads, up to a number that no run reaches.
pub const MOST_READS: u64 = 1_000_000_000_000;

// How many bytes one read put at the start of `part`: none where the input has ended, and none where the read failed.
fn got<R: Read>(input: &mut R, part: &mut [u8]) -> usize
    ensures bound { result ≤ length part.new }
    ensures bytes { Consumes (R.remaining input.old) (R.remaining input.new) (take result part.new) }
{
    input.read(part).unwrap_or(0)
}

// One read, and one write of all that is said of it: whether there is more to read. A read that fails ends the input; a write that fails ends
// the program.
fn one_turn<R: Read, W: Write>(
    input: &mut R,
    output: &mut W,
    part: &mut [u8],
    out: &mut [u8],
    rehearsal: &mut Rehearsal,
) -> io::Result<bool>
    requires part_fits { length part.old ≤ part_room }
    requires out_fits { length out.old ≡ out_room }
    requires rows_fit { (mach_of rehearsal.old).row + part_room < 2 ^ 64 }
    ensures rows { (mach_of rehearsal.new).row ≤ (mach_of rehearsal.old).row + part_room }
    ensures turned { Turned (R.remaining input.old) (R.remaining input.new) (W.contents output.old) (W.contents output.new) (mach_of rehearsal.old) (mach_of rehearsal.new) result }
{
    let n = got(input, part);
    if n == 0 {
        return Ok(false);
    }
    let at = rehearsal.feed(&part[..n], out, 0);
    output.write_all(&out[..at])?;
    Ok(rehearsal.goes_on())
}

fn all_turns<R: Read, W: Write>(
    input: &mut R,
    output: &mut W,
    part: &mut [u8],
    out: &mut [u8],
    rehearsal: &mut Rehearsal,
) -> io::Result<()>
    requires part_fits { length part.old ≤ part_room }
    requires out_fits { length out.old ≡ out_room }
    requires first { rehearsal.old ≡ fresh }
    ensures rows { (mach_of rehearsal.new).row + 1 < 2 ^ 64 }
    ensures turned { Turned (R.remaining input.old) (R.remaining input.new) (W.contents output.old) (W.contents output.new) (mach_of rehearsal.old) (mach_of rehearsal.new) result }
{
    for _turn in 0..MOST_READS {
        if !one_turn(input, output, part, out, rehearsal)? {
            break;
        }
    }
    Ok(())
}

// All that a reader gives, and its end.
fn all_bytes<R: Read, W: Write>(
    input: &mut R,
    output: &mut W,
    part: &mut [u8],
    out: &mut [u8],
) -> io::Result<()>
    requires part_fits { length part.old ≤ part_room }
    requires out_fits { length out.old ≡ out_room }
    ensures { Rehearsed (R.remaining input.old) (R.remaining input.new) (W.contents output.old) (W.contents output.new) result }
{
    let mut rehearsal = Rehearsal::new();
    all_turns(input, output, part, out, &mut rehearsal)?;
    let end = rehearsal.finish(out, 0);
    output.write_all(&out[..end])
}

// The buffers of the rehearsal. They are made apart from their use, since a proof that reads their length must not count them out.
pub fn rehearse<R: Read, W: Write>(input: &mut R, output: &mut W) -> io::Result<()>
    ensures { Rehearsed (R.remaining input.old) (R.remaining input.new) (W.contents output.old) (W.contents output.new) result }
{
    let mut part = [0u8; PART_ROOM];
    let mut out = [0u8; OUT_ROOM];
    all_bytes(input, output, &mut part, &mut out)
}
