// What an accepted step's row has behind its number: the answer 0, the outcome's word, and the slot and the entry that it shows.
ghost use Rattle.std.specs.Prelude.{◌∷◌, [], ◌++◌, ◌≤◌, ◌+◌, length};
ghost use Rattle.print.specs.Put.{Wrote};
ghost use Rattle.print.specs.Rows.{fields, slot_shown, entry_shown, outcome_shown, accepted_fields};
ghost use Rattle.types.specs.Texts.{bytes};
ghost use Rattle.print.specs.Words.{ending_word, outcome_word, reading_text};

use super::number::{put_long_field, put_short_field, put_up_to_four};
use super::put::{put_byte, put_bytes};
use cabinet::{Entry, Reading};
use types::{Ending, Outcome};

// `word` is a byte string at each call, answer and commas among its bytes.
fn put_slot(buf: &mut [u8], at: usize, word: &[u8], slot: u8) -> usize
    requires { at + length word.now + 8 ≤ length buf.old }
    ensures wrote { Wrote buf.old at (word.now ++ fields (slot_shown slot)) buf.new result }
    ensures upper_bound { result ≤ at + length word.now + 8 }
{
    let i = put_bytes(buf, at, word);
    let j = put_short_field(buf, i, slot);
    put_bytes(buf, j, b",,,\n")
}

fn put_reading(buf: &mut [u8], at: usize, reading: Reading) -> usize
    requires { at + 10 ≤ length buf.old }
    ensures wrote { Wrote buf.old at (fields (reading_text reading ∷ [])) buf.new result }
    ensures upper_bound { result ≤ at + 10 }
{
    match reading {
        Reading::Unknown => put_bytes(buf, at, b",unknown\n"),
        Reading::Open(minutes) => {
            let i = put_bytes(buf, at, b",open ");
            let j = put_up_to_four(buf, i, minutes as u16);
            put_byte(buf, j, b'\n')
        }
        Reading::Closed => put_bytes(buf, at, b",closed\n"),
    }
}

fn put_entry(buf: &mut [u8], at: usize, slot: u8, entry: Entry) -> usize
    requires { at + 39 ≤ length buf.old }
    ensures wrote { Wrote buf.old at (fields (entry_shown slot entry)) buf.new result }
    ensures upper_bound { result ≤ at + 39 }
{
    let i = put_short_field(buf, at, slot);
    let j = put_long_field(buf, i, entry.stamp.counter);
    let k = put_short_field(buf, j, entry.stamp.writer);
    put_reading(buf, k, entry.reading)
}

fn put_ending(buf: &mut [u8], at: usize, ending: Ending) -> usize
    requires { at + 10 ≤ length buf.old }
    ensures wrote { Wrote buf.old at (bytes ",0," ++ ending_word ending) buf.new result }
    ensures upper_bound { result ≤ at + 10 }
{
    match ending {
        Ending::Chosen => put_bytes(buf, at, b",0,chosen"),
        Ending::Found => put_bytes(buf, at, b",0,found"),
        Ending::Written => put_bytes(buf, at, b",0,written"),
        Ending::Read => put_bytes(buf, at, b",0,read"),
    }
}

#[inline(always)]
pub fn put_outcome(buf: &mut [u8], at: usize, outcome: Outcome) -> usize
    requires { at + 49 ≤ length buf.old }
    ensures wrote { Wrote buf.old at (accepted_fields (outcome_word outcome ∷ outcome_shown outcome)) buf.new result }
    ensures upper_bound { result ≤ at + 49 }
{
    match outcome {
        Outcome::Begun => put_bytes(buf, at, b",0,begun,,,,\n"),
        Outcome::Sent(slot) => put_slot(buf, at, b",0,sent", slot),
        Outcome::Answered(slot) => put_slot(buf, at, b",0,answered", slot),
        Outcome::Unanswered(slot) => put_slot(buf, at, b",0,unanswered", slot),
        Outcome::Discarded(slot) => put_slot(buf, at, b",0,discarded", slot),
        Outcome::Counted(slot) => put_slot(buf, at, b",0,counted", slot),
        Outcome::Ended(ending, slot, entry) => {
            let i = put_ending(buf, at, ending);
            put_entry(buf, i, slot, entry)
        }
        Outcome::Lost(slot) => put_slot(buf, at, b",0,lost", slot),
        Outcome::Stopped => put_bytes(buf, at, b",0,stopped,,,,\n"),
        Outcome::Left => put_bytes(buf, at, b",0,left,,,,\n"),
        Outcome::Restarted => put_bytes(buf, at, b",0,restarted,,,,\n"),
        Outcome::RolledBack => put_bytes(buf, at, b",0,rolled back,,,,\n"),
    }
}
