// A piece of a list: how many rows it has and where they end.
ghost use Rattle.std.specs.Prelude.{◌+◌, ◌≤◌, ◌<◌, length};

use cases::line_from;
use text::{parse, step_of};
use types::Step;

#[derive(Clone, Copy)]
pub struct Piece {
    pub count: usize,
    pub next: usize,
}

// The steps of the next rows, as many as there are places for, or of all that are left.
pub fn piece_from(s: &[u8], from: usize, steps: &mut [Step]) -> Piece
    requires { (from < length s.now) × (0 < length steps.old) }
    ensures counted { (0 < result.count) × (result.count ≤ length steps.old) }
    ensures next { (from + result.count ≤ result.next) × (result.next ≤ length s.now) }
{
    let mut piece = Piece {
        count: 0,
        next: from,
    };
    while piece.count < steps.len() && piece.next < s.len() {
        let line = line_from(s, piece.next);
        steps[piece.count] = step_of(parse(line.row));
        piece.count += 1;
        piece.next = line.next;
    }
    piece
}
