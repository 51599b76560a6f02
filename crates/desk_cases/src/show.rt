// What the program prints: a line for each list, and one for each table.
ghost use Rattle.std.specs.Prelude.{◌+◌, ◌≤◌, IfSome};
ghost use Rattle.cases.specs.Sizes.{most_list_bytes};

use super::list::Tally;
use std::io;

pub fn list(rt: &impl Print, name: &str, tally: Option<Tally>) -> io::Result<()>
    requires { IfSome tally (λ t. t.accepted + t.refused ≤ most_list_bytes) }
{
    let Some(t) = tally else {
        return println!(rt; "{name}: NO PLAN");
    };
    let a = t.accepted;
    let r = t.refused;
    let n = a + r;
    print!(rt; "{name}: {n} steps, {a} accepted, {r} refused, ")?;
    match t.differs {
        None => println!(rt; "agree"),
        Some(row) => println!(rt; "ROW {row} DIFFERS"),
    }
}

pub fn table(rt: &impl Print, n: u8, name: &str, kept: bool) -> io::Result<()> {
    print!(rt; "{n} {name}")?;
    if kept {
        print!(rt; ", nothing changed")?;
    }
    println!(rt; "")
}
