//! Trust anchors by the names of their locators (RFC 8630 3).

ghost use Rattle.std.specs.Prelude.{◌≡◌, ◌↔◌, ◌+◌, ◌≤◌, IfNone, IfOk, IfSome, IsTrue};
ghost use Rattle.rpki_rules.specs.Chains.{CertAt};
ghost use Rattle.rpki_rules.specs.Points.{Anchor, IsAnchorCert};
ghost use Rattle.rpki_rules.specs.Words.{Mem};
ghost use Rattle.rpki_standing.specs.Readers.{SameReader, world_by};
ghost use Rattle.rpki_standing.specs.rpki_bundle.declared.parts.Locator.{Locator as LocatorValue};
ghost use Rattle.rpki_steps.specs.NamedAnchors.{IsAnchorOf};

use rpki_rules::reason::laws::anchor_tests_are_rules;
use rpki_standing::anchors::laws::{no_lead, one_lead};
use rpki_standing::anchors::{LocatorLookup, follow};
use rpki_standing::table::{Locator, Object};
use rpki_standing::{BundleReader, Cert, Digester, PublicKey, Verifier, check_anchor_cert};
use std::alloc::{AllocError, Global};

/// The locator of that name among those. They are gone through, one by one.
pub fn locator_named<'a>(locators: &'a [Locator], name: &[u8]) -> Option<&'a Locator>
    ensures listed { IfSome result (λ l. Mem locators.now l.now) }
    ensures named { IfSome result (λ l. l.now.name ≡ name.now) }
    ensures none { IfNone result ((l : LocatorValue)
        → Mem locators.now l → ¬ (l.name ≡ name.now)) }
{
    let mut rest = locators;
    while let Some((first, others)) = rest.split_first() {
        if first.name.as_slice() == name {
            return Some(first);
        }
        rest = others;
    }
    None
}

// Whether that is the object's lookup key, and the certificate is one of a trust anchor with that key. The verifier is asked
// once, at most.
fn is_anchor_there<D: Digester, V: Verifier>(
    object: &Object,
    key: &PublicKey,
    uri: &[u8],
    cert: &Cert,
    reader: &mut BundleReader<'_, D, V>,
) -> bool
    ensures anchor { IsTrue result ↔ ((object.now.uri ≡ uri.now) × IsAnchorCert
        (world_by D.sha256_digest D.sha1_digest V.says reader.old) key.now cert.now) }
    ensures same { SameReader V.says reader.old reader.new }
    ensures asked { V.count reader.new.verifier.now ≤ V.count reader.old.verifier.now + 1 }
{
    anchor_tests_are_rules();
    object.uri.as_slice() == uri && check_anchor_cert(cert, key, reader).is_ok()
}

/// Whether the certificate at the lookup key is the anchor to which the locator leads. The verifier is asked once, at most.
pub fn is_anchor_of<D: Digester, V: Verifier>(
    alloc: Global,
    locator: &Locator,
    uri: &[u8],
    cert: &Cert,
    reader: &mut BundleReader<'_, D, V>,
) -> Result<bool, AllocError>
    requires { CertAt (world_by D.sha256_digest D.sha1_digest V.says reader.old) uri.now cert.now }
    ensures anchor { IfOk result (λ yes. IsTrue yes ↔ IsAnchorOf
        (world_by D.sha256_digest D.sha1_digest V.says reader.old)
        locator.now (record { uri = uri.now; cert = cert.now })) }
    ensures same { SameReader V.says reader.old reader.new }
    ensures asked { V.count reader.new.verifier.now ≤ V.count reader.old.verifier.now + 1 }
{
    one_lead();
    no_lead();
    let LocatorLookup::Held(object, tal) = follow(alloc, locator, &reader.index)? else {
        return Ok(false);
    };
    let is = is_anchor_there(object, tal.key_info(), uri, cert, reader);
    drop(tal);
    Ok(is)
}

/// Whether the certificate at the lookup key is the anchor to which the bundle's locator of that name leads; no where no
/// locator has the name. The verifier is asked once, at most.
pub fn is_anchor<D: Digester, V: Verifier>(
    alloc: Global,
    name: &[u8],
    uri: &[u8],
    cert: &Cert,
    reader: &mut BundleReader<'_, D, V>,
) -> Result<bool, AllocError>
    requires { CertAt (world_by D.sha256_digest D.sha1_digest V.says reader.old) uri.now cert.now }
    ensures anchor { IfOk result (λ yes. IsTrue yes ↔ Anchor
        (world_by D.sha256_digest D.sha1_digest V.says reader.old)
        name.now (record { uri = uri.now; cert = cert.now })) }
    ensures same { SameReader V.says reader.old reader.new }
    ensures asked { V.count reader.new.verifier.now ≤ V.count reader.old.verifier.now + 1 }
{
    let Some(locator) = locator_named(reader.index.locators(), name) else {
        return Ok(false);
    };
    is_anchor_of(alloc, locator, uri, cert, reader)
}
