//! Laws of what locators lead to: the contracts of functions that do nothing.

ghost use Rattle.std.specs.Prelude.{◌≡◌, List, ℕ};
ghost use Rattle.objects_payload.specs.declared.locator.error.ReadError.{ReadError};
ghost use Rattle.rpki_standing.specs.rpki_bundle.declared.parts.Locator.{Locator};
ghost use Rattle.rpki_rules.specs.Certs.{Cert, CertText, Key};
ghost use Rattle.rpki_rules.specs.declared.reason.locators.LocatorReason.TheVariants.{BadText, NoneHeld};
ghost use Rattle.rpki_rules.specs.LocatorReasons.{LocatorFails};
ghost use Rattle.rpki_rules.specs.Points.{Anchor, IsAnchorCert, Link};
ghost use Rattle.rpki_rules.specs.Words.{Mem};
ghost use Rattle.rpki_rules.specs.World.{World};
ghost use Rattle.rpki_standing.specs.Lookups.{HoldsAt};

use objects_payload::locator::laws::{faults_are_refused, one_locator};

/// A locator leads to one object at most.
pub fn one_lead()
    ensures key { (w : World) (l : Locator) (j k : Key) (u v o p : List ℕ)
        → HoldsAt w l j u o → HoldsAt w l k v p → j ≡ k }
    ensures uri { (w : World) (l : Locator) (j k : Key) (u v o p : List ℕ)
        → HoldsAt w l j u o → HoldsAt w l k v p → u ≡ v }
    ensures octets { (w : World) (l : Locator) (j k : Key) (u v o p : List ℕ)
        → HoldsAt w l j u o → HoldsAt w l k v p → o ≡ p }
{
    one_locator();
}

/// A locator whose text has a fault, or that has no object at any of its URIs, leads to no object.
pub fn no_lead()
    ensures unreadable { (w : World) (l : Locator) (fault : ReadError) (k : Key) (u o : List ℕ)
        → LocatorFails w l (BadText fault) → ¬ (HoldsAt w l k u o) }
    ensures nowhere { (w : World) (l : Locator) (k : Key) (u o : List ℕ)
        → LocatorFails w l NoneHeld → ¬ (HoldsAt w l k u o) }
{
    one_locator();
    faults_are_refused();
}

/// Where a locator of the bundle leads to an object, and the object is a certificate as a trust anchor's has to be, it
/// is the locator's trust anchor; and the locator has no other (RFC 8630 3).
pub fn anchors_are_there()
    ensures anchor { (w : World) (l : Locator) (k : Key) (u o : List ℕ) (c : Cert)
        → Mem w.locators l → HoldsAt w l k u o → CertText o c → IsAnchorCert w k c
        → Anchor w l.name (record { uri = u; cert = c }) }
    ensures uri { (w : World) (name : List ℕ) (a : Link) (k : Key) (u o : List ℕ)
        (h : Anchor w name a) → HoldsAt w h.locator k u o → a.uri ≡ u }
    ensures cert { (w : World) (name : List ℕ) (a : Link) (k : Key) (u o : List ℕ)
        (h : Anchor w name a) → HoldsAt w h.locator k u o → CertText o a.cert }
    ensures is_anchor { (w : World) (name : List ℕ) (a : Link) (k : Key) (u o : List ℕ)
        (h : Anchor w name a) → HoldsAt w h.locator k u o → IsAnchorCert w k a.cert }
{
    one_lead();
}
