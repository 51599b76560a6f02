// What is asked before a cabinet stops, restarts or rolls back.
ghost use Rattle.std.specs.Prelude.{◌≡◌, ◌||◌, ltb};
ghost use Rattle.types.specs.Parts.{is_forgetful};
ghost use Rattle.server.specs.Deeds.{is_down};

use cabinet::Power;
use plan::Profile;

pub fn is_down(p: Power) -> bool
    ensures { result ≡ is_down p }
{
    p == Power::Down
}

pub fn may_roll(marked: bool, others: u8, r: u8) -> bool
    ensures { result ≡ (marked || ltb others r) }
{
    marked || others < r
}

pub fn forgets(p: Profile) -> bool
    ensures { result ≡ is_forgetful p }
{
    matches!(p, Profile::Forgetful)
}
