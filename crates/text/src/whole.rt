// The next whole row of a part of the input, where steps are due.
ghost use Rattle.std.specs.Prelude.{◌≡◌, ◌==◌, ◌≤◌, length, position, MatchOption};
ghost use Rattle.text.specs.Ends.{unended, breaks, step_in, Finds, Leads};

use super::ahead::step_ahead;
use super::row::{Row, parse};
use types::Step;

// A row's step, `Other` where the row is none, and the place behind the row's LF.
#[derive(Clone, Copy, PartialEq, Eq)]
pub struct Found {
    pub step: Step,
    pub end: usize,
}

// A row without one CR at its end.
pub fn trim(l: &[u8]) -> &[u8]
    ensures { result.now ≡ unended l.now }
{
    l.strip_suffix(b"\r").unwrap_or(l)
}

// Where steps are due, a plan row is no step, either.
pub fn step_of(row: Option<Row>) -> Step
    ensures { result ≡ step_in row }
{
    match row {
        Some(Row::Step(step)) => step,
        _ => Step::Other,
    }
}

// Where the first LF is.
fn line_end(s: &[u8]) -> Option<usize>
    ensures { result ≡ position (λ b. b == 10) s.now }
{
    s.iter().position(|b| *b == b'\n')
}

// The row that s begins with, whatever its form: its end is looked for first.
fn by_end(s: &[u8]) -> Option<Found>
    ensures { MatchOption result (breaks s.now ≡ 0) (λ f. Leads s.now f.step f.end) }
{
    let e = line_end(s)?;
    Some(Found {
        step: step_of(parse(trim(&s[..e]))),
        end: e + 1,
    })
}

// The next whole row of s from `from` on; None where no LF comes.
pub fn find(s: &[u8], from: usize) -> Option<Found>
    requires { from ≤ length s.now }
    ensures { Finds s.now from result }
{
    let rest = &s[from..];
    let row = step_ahead(rest).or_else(|| by_end(rest))?;
    Some(Found {
        end: from + row.end,
        ..row
    })
}
