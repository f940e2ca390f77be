//! The reply as C has it, and the test of a length that is fixed.
ghost use Rattle.std.specs.Prelude.{◌≡◌, ◌<◌, length};
ghost use Rattle.literal.specs.Kinds.{refused};
ghost use Rattle.capi.specs.Lent.{length_checked, place_after, reply_of};

use literal::{Refusal, reply_number};

/// The reply's number: 0 where the call is accepted.
pub(crate) fn number(outcome: Result<(), Refusal>) -> u32
    ensures { result ≡ reply_of outcome }
{
    reply_number(&outcome)
}

/// What has to be lent at one length and has another is damaged.
pub(crate) fn check_length(length: usize, wanted: usize) -> Result<(), Refusal>
    ensures { result ≡ length_checked length wanted }
{
    if length != wanted {
        return Err(Refusal::Damaged);
    }
    Ok(())
}

/// The place of a bad term is told, and with that refusal alone, which is handed on.
pub(crate) fn tell_place(refusal: Refusal, told: &mut [u64], at: usize) -> Refusal
    requires { at < length told.old }
    ensures same { result ≡ refusal }
    ensures told { told.new ≡ place_after at (refused refusal) told.old }
{
    if let Refusal::BadTerm(place) = refusal {
        told[at] = place as u64;
    }
    refusal
}
