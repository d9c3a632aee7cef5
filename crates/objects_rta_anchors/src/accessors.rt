//! What stands where in an attestation.

ghost use Rattle.std.specs.Prelude.{◌≡◌, ◌<◌, MatchOption, None, Some, length, slice_get};

use objects_rta_valid::{Cert, Rta};

/// The certificates that an attestation carries.
pub(crate) fn certs_of(rta: &Rta) -> &[Cert]
    ensures { result.now ≡ rta.now.signed.certs }
{
    rta.signed().certificates()
}

/// The certificate at that place, if there is one.
pub(crate) fn cert_at(certs: &[Cert], place: usize) -> Option<&Cert>
    ensures { MatchOption result (slice_get certs.now place ≡ None)
        (λ c. slice_get certs.now place ≡ Some c.now) }
{
    certs.get(place)
}

/// The place where the path of that signer ends.
pub(crate) fn end_at(ends: &[usize], signer: usize) -> usize
    requires { signer < length ends.now }
    ensures { slice_get ends.now signer ≡ Some result }
{
    ends[signer]
}
