// Prints the plans worth choosing for every number of cabinets, as a Markdown table. Every plan is an answer of the planning rule.
#![tactic(auto)]

ghost use Rattle.std.specs.Prelude.{◌≡◌};
ghost use Rattle.plan.specs.Rule.{plan_of};
ghost use Rattle.plans.specs.Worth.{affords as affords_of, worth as worth_of};

use limits::{FEWEST_CABINETS, MOST_CABINETS};
use plan::{Plan, Profile};
use std::io;

// Whether these numbers make a plan that needs no more than so many stores.
fn affords(n: u64, k: u64, r: u64, b: u64, stores: u8) -> bool
    ensures { result ≡ affords_of (plan_of n k r b) stores }
{
    plan::choose(n, k, r, b).is_ok_and(|p| p.stores <= stores)
}

// A plan is worth choosing when no other of the same n, with no more stores, has k, r and b at least as large and one of them larger.
// Three questions find that out, though the accepted plans are not downward closed: 3,1,1,0 is accepted and 3,0,1,0 is not, for r may not
// exceed k. Between a plan and a larger one k can always be raised first. Law `none_better` of proofs/WorthLaws.antt.
#[tactic(auto, unfolding(crate::specs::Worth::worth))]
fn is_worth(p: Plan) -> bool
    ensures { result ≡ worth_of p }
{
    let (n, k, r, b) = (p.n as u64, p.k as u64, p.r as u64, p.b as u64);
    !affords(n, k + 1, r, b, p.stores)
        && !affords(n, k, r + 1, b, p.stores)
        && !affords(n, k, r, b + 1, p.stores)
}

fn row(rt: &impl Print, p: Plan) -> io::Result<()> {
    let profile = match p.profile {
        Profile::Forgetful => "forgetful",
        Profile::Store => "store",
    };
    println!(rt;
        "| {} | {} | {} | {} | {profile} | {} | {} | {} |",
        p.n, p.k, p.r, p.b, p.stores, p.write, p.read
    )
}

// A line's plans in two passes: first those without stores, then those with.
fn rows(rt: &impl Print, n: u64) -> io::Result<()> {
    for stored in [false, true] {
        for k in 0..=n {
            for r in 0..=k {
                for b in 0..=n {
                    if let Ok(p) = plan::choose(n, k, r, b)
                        && (p.stores > 0) == stored
                        && is_worth(p)
                    {
                        row(rt, p)?;
                    }
                }
            }
        }
    }
    Ok(())
}

fn main(rt: HostRuntime) -> io::Result<()> {
    println!(rt; "| n | k | r | b | Profile | Stores | Write quorum | Read quorum |")?;
    println!(rt; "|---|---|---|---|---|---|---|---|")?;
    for n in FEWEST_CABINETS as u64..=MOST_CABINETS as u64 {
        rows(&rt, n)?;
    }
    Ok(())
}
