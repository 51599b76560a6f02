// The rows of a list that is held whole: what one says, and where the next one starts.
ghost use Rattle.std.specs.Prelude.{◌≡◌, ◌≤◌, ◌<◌, length, take, drop};

// A row without its LF and one CR before that.
#[derive(Clone, Copy)]
pub struct Line<'a> {
    pub row: &'a [u8],
    pub next: usize,
}

// A row without LF is the last, and a CR at its end is part of it. Past the last row stands an empty one.
pub fn line_from(s: &[u8], from: usize) -> Line<'_>
    requires { from ≤ length s.now }
    ensures row { result.row.now ≡ take (length result.row.now) (drop from s.now) }
    ensures next_in_bounds { (result.next ≤ length s.now) × (from < length s.now → from < result.next) }
{
    let rest = &s[from..];
    match rest.iter().position(|b| *b == b'\n') {
        Some(end) => Line {
            row: text::trim(&rest[..end]),
            next: from + end + 1,
        },
        None => Line {
            row: rest,
            next: s.len(),
        },
    }
}
