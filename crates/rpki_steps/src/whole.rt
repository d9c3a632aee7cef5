//! Whole IPv4 addresses: contracts of functions that do nothing.

ghost use Rattle.std.specs.Prelude.{List, ℕ};
ghost use Rattle.rpki_walk.specs.resources_ip.WholeSets.{AreWhole, ListsWhole};
ghost use Rattle.rpki_steps.specs.resources_chain.Claims.{Choice, Kept, Lists};
ghost use Rattle.rpki_steps.specs.resources_chain.Sets.{InRuns, IsRunsOf, Run};
ghost use Rattle.rpki_rules.specs.Certs.{Cert, CertText};

use rpki_walk::reach::laws::ipres::{
    choices_that_are_read_fit, families_that_are_read_fit, what_is_kept_is_whole,
};

/// What a certificate lists of IPv4 are whole addresses, and so is what is held by it (RFC 3779 2.2.3).
pub fn addresses_are_whole()
    ensures listed { (octets : List ℕ) (c : Cert) → CertText octets c → ListsWhole c.tbs.v4 }
    ensures own { (choice : Choice) (set : List Run) → ListsWhole choice
        → IsRunsOf (Lists choice) set → AreWhole set }
    ensures kept { (choice : Choice) (held set : List Run) → ListsWhole choice → AreWhole held
        → IsRunsOf (Kept choice (InRuns held)) set → AreWhole set }
{
    families_that_are_read_fit();
    choices_that_are_read_fit();
    what_is_kept_is_whole();
}
