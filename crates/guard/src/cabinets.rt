// Cabinets that an undamaged run may hold.
ghost use Rattle.std.specs.Prelude.{◌≡◌};
ghost use Rattle.guard.specs.All.{all_from};
ghost use Rattle.guard.specs.Damage.{version_sound, kept_sound, record_sound, factory_at, is_fresh, cabinet_sound};

use super::entries;
use cabinet::{Cabinet, Entry, Power};
use limits::{MOST_CABINETS, MOST_VERSIONS, byte};
use plan::Plan;

#[tactic(auto, unfolding(crate::specs::Damage::version_sound))]
fn version_sound(steps: u32, kept: u8, i: usize, e: Entry) -> bool
    ensures { result ≡ version_sound steps kept i e }
{
    entries::entry_sound(steps, e) && (i < kept as usize || e.is_factory())
}

fn versions_sound(steps: u32, kept: u8, versions: &[Entry; MOST_VERSIONS]) -> bool
    ensures { result ≡ all_from (version_sound steps kept) 0 versions.now }
{
    versions
        .iter()
        .enumerate()
        .all(|(i, e)| version_sound(steps, kept, i, *e))
}

#[tactic(auto, unfolding(crate::specs::Damage::kept_sound))]
fn kept_sound(stored: bool, kept: u8) -> bool
    ensures { result ≡ kept_sound stored kept }
{
    1 <= kept && kept <= byte::MOST_VERSIONS && (stored || kept == 1)
}

// A record of one of the line's n cabinets.
#[tactic(auto, unfolding(crate::specs::Damage::record_sound))]
pub fn record_sound(steps: u32, stored: bool, k: &Cabinet) -> bool
    ensures { result ≡ record_sound steps stored k.now }
{
    kept_sound(stored, k.kept) && versions_sound(steps, k.kept, &k.versions)
}

fn all_factory(versions: &[Entry; MOST_VERSIONS]) -> bool
    ensures { result ≡ all_from factory_at 0 versions.now }
{
    versions.iter().all(|e| e.is_factory())
}

#[tactic(auto, unfolding(crate::specs::Damage::is_fresh))]
fn is_fresh(k: &Cabinet) -> bool
    ensures { result ≡ is_fresh k.now }
{
    k.kept == 1 && k.power == Power::Up && !k.marked && all_factory(&k.versions)
}

#[tactic(auto, unfolding(crate::specs::Damage::cabinet_sound))]
fn cabinet_sound(plan: &Plan, steps: u32, i: usize, k: &Cabinet) -> bool
    ensures { result ≡ cabinet_sound plan.now steps i k.now }
{
    if i < plan.n as usize {
        record_sound(steps, i < plan.stores as usize, k)
    } else {
        is_fresh(k)
    }
}

pub fn cabinets_sound(plan: &Plan, steps: u32, cabinets: &[Cabinet; MOST_CABINETS]) -> bool
    ensures { result ≡ all_from (cabinet_sound plan.now steps) 0 cabinets.now }
{
    cabinets
        .iter()
        .enumerate()
        .all(|(i, k)| cabinet_sound(plan, steps, i, k))
}
