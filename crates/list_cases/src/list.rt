// A list in pieces of each size: its second row plans the run, and every row after that is a step of it.
ghost use Rattle.std.specs.Prelude.{◌≤◌, ◌<◌, length};
ghost use Rattle.cases.specs.Sizes.{most_list_bytes};
ghost use Rattle.lists.specs.Whole.{most_listed};

use super::piece::piece_from;
use super::show;
use super::tally::Tally;
use super::three::Three;
use cases::Begun;
use lists::MOST_LISTED;
use std::io;
use types::Step;

fn pieces(s: &[u8], begun: &Begun, most: usize) -> Tally
    requires { (begun.now.from ≤ length s.now) × (length s.now ≤ most_list_bytes) × (0 < most) × (most ≤ most_listed) }
{
    let mut three = Three::of(&begun.run);
    let mut tally = Tally::NOTHING;
    let mut steps = [Step::Other; MOST_LISTED];
    let mut at = begun.from;
    while at < s.len() {
        let piece = piece_from(s, at, &mut steps[..most]);
        let same = three.take_piece(&steps, piece.count);
        tally.count(piece.count, same);
        at = piece.next;
    }
    tally
}

// A list is held whole, in a buffer of `most_list_bytes`, so that its steps can be counted.
pub fn compare(rt: &impl Print, name: &str, s: &[u8]) -> io::Result<()>
    requires { length s.now ≤ most_list_bytes }
{
    let Some(begun) = cases::begin(s) else {
        return show::no_plan(rt, name);
    };
    for most in [1, 7, 255, 256] {
        show::list(rt, name, most, pieces(s, &begun, most))?;
    }
    Ok(())
}
