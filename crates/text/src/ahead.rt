// A step row at the front of an input, read with its LF, so that no byte is looked at twice to find the row's end.
ghost use Rattle.std.specs.Prelude.{◌≡◌, Some, IfSome};
ghost use Rattle.text.specs.Ends.{Leads};
ghost use Rattle.text.specs.Pieces.{head_in};
ghost use Rattle.text.specs.Words.{kinds};

use super::row::{one_step, two_step};
use super::whole::Found;
use super::word::{Double, Kind, Single};
use super::{field, word};

// The kind's word has `from` bytes with its comma.
fn one_ahead(k: Single, s: &[u8], from: usize) -> Option<Found>
    requires { head_in kinds s.now ≡ Some (record { kind = Kind.WithOne k; end = from }) }
    ensures { IfSome result (λ f. Leads s.now f.step f.end) }
{
    let rest = &s[from..];
    let (a, n) = field::byte_at(rest)?;
    if !rest[n..].starts_with(b",,,\n") {
        return None;
    }
    Some(Found {
        step: one_step(k, a),
        end: from + n + 4,
    })
}

fn two_ahead(k: Double, s: &[u8], from: usize) -> Option<Found>
    requires { head_in kinds s.now ≡ Some (record { kind = Kind.WithTwo k; end = from }) }
    ensures { IfSome result (λ f. Leads s.now f.step f.end) }
{
    let rest = &s[from..];
    let (a, b, n) = field::bytes_at(rest)?;
    if !rest[n..].starts_with(b",,\n") {
        return None;
    }
    Some(Found {
        step: two_step(k, a, b),
        end: from + n + 3,
    })
}

// The step row that s begins with, where it is plain to see. None says nothing: the row may end in CRLF, be a write, be of another form, or
// not end here.
pub fn step_ahead(s: &[u8]) -> Option<Found>
    ensures { IfSome result (λ f. Leads s.now f.step f.end) }
{
    // Most rows are of these two kinds: their words are compared first, without a look at the table of kinds.
    if s.starts_with(b"deliver,") {
        return one_ahead(Single::Delivers, s, 8);
    }
    if s.starts_with(b"send,") {
        return two_ahead(Double::Sends, s, 5);
    }
    let head = word::head_of(s)?;
    match head.kind {
        Kind::Plans | Kind::Writes => None,
        Kind::WithOne(k) => one_ahead(k, s, head.end),
        Kind::WithTwo(k) => two_ahead(k, s, head.end),
    }
}
