//! Paths that a locator anchors.

ghost use Rattle.std.specs.Prelude.{◌↔◌, ℕ, IsTrue};
ghost use Rattle.objects_rta_valid.specs.Places.{Stands};
ghost use Rattle.objects_rta_anchors.specs.Anchors.{AreMarked, IsAtLocator};
ghost use Rattle.objects_rta_anchors.specs.Ends.{EndsAt, IsOpenAt};
ghost use Rattle.objects_rta_anchors.specs.declared.anchor.Anchor.TheVariants.{Locator};

use crate::accessors::cert_at;
use crate::anchor::{Anchor, is_open_at};
use crate::ends::Ends;
use objects_payload::locator::Tal;
use objects_rta_valid::Cert;

// Whether the certificate names itself, and has the locator's key, by what is encoded of it.
fn is_at_locator(cert: &Cert, tal: &Tal) -> bool
    ensures { IsTrue result ↔ IsAtLocator tal.now.key cert.now }
{
    let own = cert.tbs().subject_public_key_info();
    cert.tbs().is_self_signed() && own.encoded() == tal.key_info().encoded()
}

// Whether that holds of the certificate at the place.
fn stands_at_locator(certs: &[Cert], place: usize, tal: &Tal) -> bool
    ensures { IsTrue result ↔ Stands certs.now place (IsAtLocator tal.now.key) }
{
    match cert_at(certs, place) {
        Some(cert) => is_at_locator(cert, tal),
        None => false,
    }
}

// Whether it holds of the last certificate of that signer's path.
fn ends_at_locator(ends: &Ends<'_>, signer: usize, tal: &Tal) -> bool
    ensures { IsTrue result ↔ EndsAt (IsAtLocator tal.now.key)
        ends.now.certs.now ends.now.places.now signer }
{
    match ends.places.get(signer) {
        Some(end) => stands_at_locator(ends.certs, *end, tal),
        None => false,
    }
}

// Whether that path is open, and it holds of its last certificate.
fn is_open_end(ends: &Ends<'_>, anchors: &[Anchor], signer: usize, tal: &Tal) -> bool
    ensures { IsTrue result ↔ IsOpenAt (IsAtLocator tal.now.key)
        ends.now.certs.now ends.now.places.now anchors.now signer }
{
    is_open_at(anchors, signer) && ends_at_locator(ends, signer, tal)
}

/// The open paths whose last certificates name themselves and have the locator's key become anchored; whether there is one.
pub(crate) fn mark_locator(ends: &Ends<'_>, anchors: &mut Vec<Anchor>, tal: &Tal) -> bool
    ensures found { IsTrue result ↔ ((signer : ℕ) × IsOpenAt (IsAtLocator tal.now.key)
        ends.now.certs.now ends.now.places.now anchors.old.items signer) }
    ensures marked { AreMarked (IsOpenAt (IsAtLocator tal.now.key)
        ends.now.certs.now ends.now.places.now anchors.old.items) Locator
        anchors.old.items anchors.new.items }
{
    let mut found = false;
    for signer in 0..anchors.len() {
        if is_open_end(ends, anchors.as_slice(), signer, tal) {
            anchors[signer] = Anchor::Locator;
            found = true;
        }
    }
    found
}
