// The input's end, and the last row where it has no LF.
use super::{Phase, Rehearsal};

impl Rehearsal {
    ghost use Rattle.std.specs.Prelude.{◌≡◌, ◌≤◌, ◌<◌, ◌+◌, ◌^◌, length};
    ghost use Rattle.print.specs.Put.{put};
    ghost use Rattle.print.specs.Rows.{room};
    ghost use Rattle.transcript.specs.Machine.{mach_of, end_text, goes_on};

    // After answer 13 and a refused plan nothing is said of what follows, so that it need not be read.
    pub fn goes_on(&self) -> bool
        ensures { result ≡ goes_on self.now.phase }
    {
        self.phase != Phase::Ended
    }

    // The input's end: a row that has no LF, or an input with no byte. Answers where the buffer's text ends. The rehearsal is handed over by value and
    // none of it comes back, so that whoever still has it has it as it was.
    #[tactic(auto, using(crate::proofs::MachineLaws::at_end))]
    pub fn finish(mut self, out: &mut [u8], at: usize) -> usize
        requires answer_fits { at + room + room ≤ length out.old }
        requires row_fits { self.row + 1 < 2 ^ 64 }
        ensures out { out.new ≡ put out.old at (end_text (mach_of self)) }
        ensures end { (result ≡ at + length (end_text (mach_of self))) × (result ≤ at + room) }
    {
        if self.len == 0 && self.phase != Phase::Header {
            return at;
        }
        self.act(out, at)
    }
}
