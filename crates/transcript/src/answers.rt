// A row is answered, by the phase that it comes in.
ghost use Rattle.std.specs.Prelude.{◌≡◌};
ghost use Rattle.transcript.specs.Machine.{start_phase};

use super::{Phase, Rehearsal};
use plan::Planned;
use print::{put_head, put_no_header, put_plan, put_refusal, put_step};
use run::start;
use text::{Row, step_of};

fn start_phase(p: &Planned) -> Phase
    ensures { result ≡ start_phase p.now }
{
    match p {
        Ok(_) => Phase::Running,
        Err(_) => Phase::Ended,
    }
}

#[tactic(auto, using(crate::proofs::AnswerLaws::in_answers), unfolding(crate::specs::Machine::next_phase, crate::specs::Machine::next_row, crate::specs::Machine::next_run, crate::specs::Machine::say_line, crate::specs::Machine::answered))]
impl Rehearsal {
    ghost use Rattle.std.specs.Prelude.{◌≤◌, ◌<◌, ◌+◌, ◌^◌, length};
    ghost use Rattle.print.specs.Put.{Wrote};
    ghost use Rattle.print.specs.Rows.{room};
    ghost use Rattle.transcript.specs.Machine.{Acted, answered, held_of, mach_of, say_line};

    // The header row.
    fn head_row(&mut self, out: &mut [u8], at: usize) -> usize
        requires { at + room + room ≤ length out.old }
        ensures { Acted Phase.Header (held_of self.old.len self.old.line) self.old self.new out.old at out.new result }
    {
        let end = put_head(out, at);
        if self.is_header() {
            self.phase = Phase::Planning;
            return end;
        }
        self.phase = Phase::Ended;
        put_no_header(out, end)
    }

    // The plan row, or a row that is no plan, where the plan stands.
    fn plan_row(&mut self, out: &mut [u8], at: usize) -> usize
        requires answer_fits { at + room ≤ length out.old }
        requires row_fits { self.old.row + 1 < 2 ^ 64 }
        ensures { Acted Phase.Planning (held_of self.old.len self.old.line) self.old self.new out.old at out.new result }
    {
        let row = self.row;
        self.row += 1;
        match self.says() {
            Some(Row::Plan(n, k, r, b)) => {
                let started = start(n, k, r, b);
                self.run = started.run;
                self.phase = start_phase(&started.planned);
                put_plan(out, at, row, started.planned)
            }
            _ => {
                self.phase = Phase::Ended;
                put_refusal(out, at, row)
            }
        }
    }

    // A row where steps are due. One that is no step is a step of no known kind to the run: it is answered 2, and changes nothing.
    fn step_row(&mut self, out: &mut [u8], at: usize) -> usize
        requires answer_fits { at + room ≤ length out.old }
        requires row_fits { self.old.row + 1 < 2 ^ 64 }
        requires due { self.old.phase ≡ Phase.Running }
        ensures { Acted Phase.Running (held_of self.old.len self.old.line) self.old self.new out.old at out.new result }
    {
        let step = step_of(self.says());
        let answer = self.run.go(step, true);
        let row = self.row;
        self.row += 1;
        put_step(out, at, row, answer)
    }

    // The row without its end is answered, and the next one begins.
    pub(super) fn act(&mut self, out: &mut [u8], at: usize) -> usize
        requires answer_fits { at + room + room ≤ length out.old }
        requires row_fits { self.old.row + 1 < 2 ^ 64 }
        ensures state { mach_of self.new ≡ answered (mach_of self.old) }
        ensures said { Wrote out.old at (say_line self.old.phase self.old.row self.old.run (held_of self.old.len self.old.line)) out.new result }
        ensures most { result ≤ at + room }
    {
        let end = match self.phase {
            Phase::Header => self.head_row(out, at),
            Phase::Planning => self.plan_row(out, at),
            Phase::Running => self.step_row(out, at),
            Phase::Ended => at,
        };
        self.len = 0;
        end
    }
}
