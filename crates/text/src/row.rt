// A row: a line of five fields, the first a word that names its kind.
ghost use Rattle.std.specs.Prelude.{◌≡◌};
ghost use Rattle.text.specs.Fields.{split};
ghost use Rattle.text.specs.Rows.{one_step, two_step, row_as, row_of, is_header};

use super::word::{Double, Kind, Single};
use super::{field, reading, word};
use types::Step;

// A plan has its n, k, r and b. A line of any other form is no row; it is answered 2.
#[derive(Clone, Copy, PartialEq, Eq)]
pub enum Row {
    Plan(u64, u64, u64, u64),
    Step(Step),
}

// A longer line is of no form; its bytes past these need not be kept.
pub const MOST_BYTES: usize = 64;

pub fn one_step(k: Single, a: u8) -> Step
    ensures { result ≡ one_step k a }
{
    match k {
        Single::Reads => Step::Read(a),
        Single::Delivers => Step::Deliver(a),
        Single::Loses => Step::Lose(a),
        Single::Stops => Step::Stop(a),
        Single::Leaves => Step::Leave(a),
        Single::Restarts => Step::Restart(a),
    }
}

pub fn two_step(k: Double, a: u8, b: u8) -> Step
    ensures { result ≡ two_step k a b }
{
    match k {
        Double::Sends => Step::Send(a, b),
        Double::RollsBack => Step::Rollback(a, b),
    }
}

// A number, and three fields that are not used.
fn with_one(k: Single, s: &[u8]) -> Option<Row>
    ensures { result ≡ row_as (Kind.WithOne k) (split s.now) }
{
    let (a, n) = field::byte_at(s)?;
    (s[n..] == b",,,"[..]).then_some(Row::Step(one_step(k, a)))
}

// Two numbers, and two fields that are not used.
fn with_two(k: Double, s: &[u8]) -> Option<Row>
    ensures { result ≡ row_as (Kind.WithTwo k) (split s.now) }
{
    let (a, b, n) = field::bytes_at(s)?;
    (s[n..] == b",,"[..]).then_some(Row::Step(two_step(k, a, b)))
}

// Four numbers.
fn plan_row(s: &[u8]) -> Option<Row>
    ensures { result ≡ row_as Kind.Plans (split s.now) }
{
    let (n, k, at) = field::pair_at(s)?;
    let rest = s.get(at + 1..)?;
    let (r, b, end) = field::pair_at(rest)?;
    (end == rest.len()).then_some(Row::Plan(n, k, r, b))
}

// A client, and a reading.
fn write_row(s: &[u8]) -> Option<Row>
    ensures { result ≡ row_as Kind.Writes (split s.now) }
{
    let (a, n) = field::byte_at(s)?;
    let w = reading::reading_of(s.get(n + 1..)?)?;
    Some(Row::Step(Step::Write(a, w)))
}

// A row of the kind k whose other fields s has.
fn row_as(k: Kind, s: &[u8]) -> Option<Row>
    ensures { result ≡ row_as k (split s.now) }
{
    match k {
        Kind::Plans => plan_row(s),
        Kind::Writes => write_row(s),
        Kind::WithOne(k) => with_one(k, s),
        Kind::WithTwo(k) => with_two(k, s),
    }
}

// What a line says; it is given without its end.
pub fn parse(line: &[u8]) -> Option<Row>
    ensures { result ≡ row_of line.now }
{
    if MOST_BYTES < line.len() {
        return None;
    }
    let head = word::head_of(line)?;
    row_as(head.kind, &line[head.end..])
}

// S16.7, S20.5: whether the line is exactly the header row.
pub fn is_header(line: &[u8]) -> bool
    ensures { result ≡ is_header line.now }
{
    line == &b"kind,a,b,c,d"[..]
}
