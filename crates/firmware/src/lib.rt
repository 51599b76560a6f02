// The cabinet rule for the cabinets' firmware, which is written in C: an entry that is held and one that is offered, in two lent buffers.
#![tactic(auto)]

mod layout;
mod xdr;

ghost use Rattle.std.specs.Prelude.{◌≡◌};
ghost use Rattle.firmware.specs.Offer.{verdict_on, number_of, answer_of, held_after};

use cabinet::Entry;

// What comes of an offer. It is refused where one of the two buffers holds no entry.
#[derive(Clone, Copy, PartialEq, Eq)]
enum Verdict {
    Taken = 20,
    Kept = 21,
    Refused = 2,
}

// The number that C is told.
impl From<Verdict> for u32 {
    ghost from_gives = { λ verdict number. number ≡ number_of verdict };

    fn from(verdict: Verdict) -> u32 {
        verdict as u32
    }
}

fn judge(held: Option<Entry>, offered: Option<Entry>) -> Verdict
    ensures { result ≡ verdict_on held offered }
{
    match (held, offered) {
        (Some(mine), Some(theirs)) if mine.takes(theirs) => Verdict::Taken,
        (Some(_), Some(_)) => Verdict::Kept,
        _ => Verdict::Refused,
    }
}

// S15.1, S20.6: the call for C; S15.7: offered is lent to be read. The buffers must not overlap; include/cabinet.h tells C so, and
// the types tell Rattle.
#[tactic(auto, using(crate::proofs::OfferLaws::both_twenty))]
#[unsafe(no_mangle)]
pub extern "C" fn cabinet_offer(held: &mut [u8], offered: &[u8]) -> u32
    ensures value { result ≡ answer_of held.old offered.now }
    ensures held_after { held.new ≡ held_after held.old offered.now }
{
    let verdict = judge(layout::decode(held), layout::decode(offered));
    if verdict == Verdict::Taken {
        held.copy_from_slice(offered);
    }
    verdict.into()
}
