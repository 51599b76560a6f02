// The head of a list: its first row is the header row, and its second plans the run.
ghost use Rattle.std.specs.Prelude.{◌≤◌, length, IfSome};

use super::line::line_from;
use run::Run;
use text::Row;

// Every row from `from` on is a step of the run.
#[derive(Clone, Copy)]
pub struct Begun {
    pub run: Run,
    pub from: usize,
}

// None where the list has no header row, or plans no run.
pub fn begin(s: &[u8]) -> Option<Begun>
    ensures { IfSome result (λ b. b.from ≤ length s.now) }
{
    let header = line_from(s, 0);
    if !text::is_header(header.row) {
        return None;
    }
    let plan = line_from(s, header.next);
    let Some(Row::Plan(n, k, r, b)) = text::parse(plan.row) else {
        return None;
    };
    let started = run::start(n, k, r, b);
    started.planned.ok()?;
    Some(Begun {
        run: started.run,
        from: plan.next,
    })
}
