// Bytes in parts of any size. An answer has room because a part is at least as long as the rows that it ends: see `feed`.
use super::{MOST_LINE, Phase, Rehearsal};
use run::start;
use turns::steps;

impl Rehearsal {
    ghost use Rattle.std.specs.Prelude.{◌≡◌, true, ◌≤◌, ◌<◌, ◌+◌, ◌*◌, ◌^◌, length, take};
    ghost use Rattle.print.specs.Put.{Wrote, put};
    ghost use Rattle.print.specs.Rows.{room};
    ghost use Rattle.text.specs.Ends.{breaks};
    ghost use Rattle.transcript.specs.Machine.{fresh, at_step, mach_of, step_m, say_m, run_m, say_all};

    // Before the first byte.
    pub fn new() -> Rehearsal
        ensures { result ≡ fresh }
    {
        Rehearsal {
            line: [0; MOST_LINE],
            len: 0,
            phase: Phase::Header,
            row: 1,
            run: start(2, 0, 0, 0).run,
        }
    }

    // Whether a step row begins here.
    fn at_step(&self) -> bool
        ensures { result ≡ at_step self.now.phase self.now.len }
    {
        self.phase == Phase::Running && self.len == 0
    }

    // One byte. LF, and nothing else, ends a row.
    #[tactic(auto, using(crate::proofs::MachineLaws::row_grows, print::proofs::PutLaws::put_none), unfolding(crate::specs::Machine::step_m, crate::specs::Machine::say_m, crate::specs::Machine::answered, crate::specs::Machine::ended))]
    fn byte(&mut self, b: u8, out: &mut [u8], at: usize) -> usize
        requires answer_fits { at + room + room ≤ length out.old }
        requires row_fits { self.old.row + 1 < 2 ^ 64 }
        ensures state { mach_of self.new ≡ step_m (mach_of self.old) b }
        ensures said { Wrote out.old at (say_m (mach_of self.old) b) out.new result }
        ensures most { (result ≤ at + room) × (self.new.row ≤ self.old.row + 1) }
    {
        let ends = b == b'\n';
        if ends {
            self.shorten();
            return self.act(out, at);
        }
        self.push(b);
        at
    }

    // The bytes of s up to where a step row begins, or all: how many they are, and where the buffer's text ends.
    #[tactic(auto, using(crate::proofs::MachineLaws::in_part))]
    fn lead(&mut self, s: &[u8], out: &mut [u8], at: usize) -> (usize, usize)
        requires answers_fit { at + room * length s.now + room ≤ length out.old }
        requires rows_fit { self.old.row + length s.now < 2 ^ 64 }
        ensures state { mach_of self.new ≡ run_m (mach_of self.old) (take result.0 s.now) }
        ensures said { Wrote out.old at (say_all (mach_of self.old) (take result.0 s.now)) out.new result.1 }
        ensures most { (result.1 ≤ at + room * result.0) × (self.new.row ≤ self.old.row + result.0) }
        ensures used { (result.0 ≤ length s.now) × (result.0 < length s.now → at_step self.new.phase self.new.len ≡ true) }
    {
        let mut end = at;
        for (i, &b) in s.iter().enumerate() {
            // Of a row that is too long there is nothing to keep before its LF.
            if self.len > MOST_LINE && b != b'\n' {
                continue;
            }
            if self.at_step() {
                return (i, end);
            }
            end = self.byte(b, out, end);
        }
        (s.len(), end)
    }

    // Bytes without LF.
    #[tactic(auto, using(crate::proofs::MachineLaws::run_none, crate::proofs::MachineLaws::run_next, crate::proofs::RowLaws::no_lf), unfolding(crate::specs::Machine::step_m))]
    fn hold(&mut self, s: &[u8])
        requires { breaks s.now ≡ 0 }
        ensures state { mach_of self.new ≡ run_m (mach_of self.old) s.now }
        ensures same { self.new.row ≡ self.old.row }
    {
        for &b in s {
            self.push(b);
        }
    }

    // A part of the input: where the buffer's text then ends. Each row that the part ends takes at most `room` bytes of the buffer, and `room` more
    // are asked for, since the header's refusal is two rows.
    #[tactic(auto, using(text::proofs::BreakLaws::rest_most, text::proofs::BreakLaws::part_all, crate::proofs::TookLaws::step_sound))]
    pub fn feed(&mut self, s: &[u8], out: &mut [u8], at: usize) -> usize
        requires answers_fit { at + room * length s.now + room ≤ length out.old }
        requires rows_fit { self.old.row + length s.now < 2 ^ 64 }
        ensures state { mach_of self.new ≡ run_m (mach_of self.old) s.now }
        ensures out { out.new ≡ put out.old at (say_all (mach_of self.old) s.now) }
        ensures end { result ≡ at + length (say_all (mach_of self.old) s.now) }
        ensures most { (result ≤ at + room * length s.now) × (self.new.row ≤ self.old.row + length s.now) }
    {
        let (used, end) = self.lead(s, out, at);
        if !self.at_step() {
            return end;
        }
        let rest = &s[used..];
        let went = steps(rest, out, end, self.row, &mut self.run);
        self.row = went.row;
        self.hold(&rest[went.used..]);
        went.at
    }
}
