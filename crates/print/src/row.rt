// The rows of the output, each whole. What a public function requires is room for the longest row, whichever it writes.
ghost use Rattle.std.specs.Prelude.{◌∷◌, ◌≤◌, ◌+◌, length};
ghost use Rattle.print.specs.Put.{Wrote};
ghost use Rattle.print.specs.Rows.{fields, refused, none_shown, accepted_fields, step_text, plan_text, refusal_text, no_header_text, head_text, room};
ghost use Rattle.print.specs.Words.{profile_word};

use super::number::{put_number, put_short_field};
use super::outcome::put_outcome;
use super::put::put_bytes;
use plan::{Planned, Profile};
use types::{Answer, Refusal};

fn put_refused(buf: &mut [u8], at: usize, number: u8) -> usize
    requires { at + 17 ≤ length buf.old }
    ensures wrote { Wrote buf.old at (fields (refused number)) buf.new result }
    ensures upper_bound { result ≤ at + 17 }
{
    let i = put_short_field(buf, at, number);
    put_bytes(buf, i, b",refused,,,,\n")
}

fn put_profile(buf: &mut [u8], at: usize, profile: Profile) -> usize
    requires { at + 17 ≤ length buf.old }
    ensures wrote { Wrote buf.old at (accepted_fields (profile_word profile ∷ none_shown)) buf.new result }
    ensures upper_bound { result ≤ at + 17 }
{
    match profile {
        Profile::Forgetful => put_bytes(buf, at, b",0,forgetful,,,,\n"),
        Profile::Store => put_bytes(buf, at, b",0,store,,,,\n"),
    }
}

// Put into the loop over the rows whole.
#[inline(always)]
pub fn put_step(buf: &mut [u8], at: usize, row: u64, answer: Answer) -> usize
    requires { at + room ≤ length buf.old }
    ensures wrote { Wrote buf.old at (step_text row answer) buf.new result }
    ensures upper_bound { result ≤ at + room }
{
    let i = put_number(buf, at, row);
    match answer {
        Ok(outcome) => put_outcome(buf, i, outcome),
        Err(why) => put_refused(buf, i, u8::from(why)),
    }
}

pub fn put_plan(buf: &mut [u8], at: usize, row: u64, planned: Planned) -> usize
    requires { at + room ≤ length buf.old }
    ensures wrote { Wrote buf.old at (plan_text row planned) buf.new result }
    ensures upper_bound { result ≤ at + room }
{
    let i = put_number(buf, at, row);
    match planned {
        Ok(plan) => put_profile(buf, i, plan.profile),
        Err(why) => put_refused(buf, i, u8::from(why)),
    }
}

// The row of an input row that has another form than a step's.
pub fn put_refusal(buf: &mut [u8], at: usize, row: u64) -> usize
    requires { at + room ≤ length buf.old }
    ensures wrote { Wrote buf.old at (refusal_text row) buf.new result }
    ensures upper_bound { result ≤ at + room }
{
    let i = put_number(buf, at, row);
    put_refused(buf, i, u8::from(Refusal::Range))
}

pub fn put_head(buf: &mut [u8], at: usize) -> usize
    requires { at + room ≤ length buf.old }
    ensures wrote { Wrote buf.old at head_text buf.new result }
    ensures upper_bound { result ≤ at + room }
{
    put_bytes(buf, at, b"row,answer,outcome,slot,counter,writer,entry\n")
}

// The single row of an input whose header row is missing or different.
pub fn put_no_header(buf: &mut [u8], at: usize) -> usize
    requires { at + room ≤ length buf.old }
    ensures wrote { Wrote buf.old at no_header_text buf.new result }
    ensures upper_bound { result ≤ at + room }
{
    put_bytes(buf, at, b"0,13,refused,,,,\n")
}
