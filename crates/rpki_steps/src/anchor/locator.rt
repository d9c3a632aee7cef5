//! What a locator leads to, with the anchor's certificate (RFC 8630 3).

ghost use Rattle.std.specs.Prelude.{◌≡◌, IfOk};
ghost use Rattle.std.specs.Str.Lossy.{utf8_lossy};
ghost use Rattle.std.specs.String.{string_bytes};
ghost use Rattle.rpki_steps.specs.Holders.{cert_of, sets_of};
ghost use Rattle.rpki_standing.specs.Readers.{SameReader, world_by};
ghost use Rattle.rpki_walk.specs.Asked.{HasLocatorReason};
ghost use Rattle.rpki_walk.specs.Repository.{IsAnchorLookup};
ghost use Rattle.rpki_standing.specs.Lookups.{HoldsAt};
ghost use Rattle.rpki_steps.specs.Anchors.{FindsAnchorIn, JudgesLocator};

use crate::anchor::cert::anchor_cert;
use crate::authority::Authority;
use crate::whole::addresses_are_whole;
use bytes::Bytes;
use certs_verify::{Digester, PublicKey, ResourceCert, TalInfo, Verifier};
use rpki_rules::reason::LocatorReason;
use rpki_rules::reason::laws::locator_reasons_refuse;
use rpki_standing::BundleReader;
use rpki_standing::anchors::{LocatorLookup, Tal, follow, read_cert};
use rpki_standing::table::{Locator, Object};
use rpki_walk::AnchorLookup;
use std::alloc::{AllocError, Global};
use std::rc::Rc;

/// A trust anchor to which a locator leads.
#[derive(Drop)]
pub struct TrustAnchor {
    /// The lookup key at which its certificate stands.
    pub uri: Bytes,
    /// Its certificate, with what it lists.
    pub authority: Authority,
}

// What the locator is called, for all that is validated below it.
fn name_of(alloc: Global, locator: &Locator) -> Result<Rc<TalInfo>, AllocError>
    ensures { IfOk result (λ name. string_bytes name.value ≡ utf8_lossy locator.now.name) }
{
    let name = String::from_utf8_lossy(alloc, locator.name.as_slice())?;
    TalInfo::from_name(name).into_rc(alloc)
}

// The certificate that the octets are, if it is one of a trust anchor with that key, and with what it lists; else why not.
fn anchor_in<D: Digester, V: Verifier>(
    alloc: Global,
    octets: &Bytes,
    key: &PublicKey,
    name: Rc<TalInfo>,
    reader: &mut BundleReader<'_, D, V>,
) -> Result<Result<ResourceCert, LocatorReason>, AllocError>
    ensures found { IfOk result (FindsAnchorIn
        (world_by D.sha256_digest D.sha1_digest V.says reader.old) key.now name.value octets.now) }
    ensures same { SameReader V.says reader.old reader.new }
{
    let Some(cert) = read_cert(alloc, octets)? else {
        return Ok(Err(LocatorReason::NoCert));
    };
    match anchor_cert(cert, key, name, reader)? {
        Ok(anchor) => Ok(Ok(anchor)),
        Err(test) => Ok(Err(LocatorReason::BadAnchor(test))),
    }
}

// The trust anchor to which a locator leads by its first object that is there, or why it leads to none.
fn lead_to<D: Digester, V: Verifier>(
    alloc: Global,
    locator: &Locator,
    object: &Object,
    tal: &Tal,
    reader: &mut BundleReader<'_, D, V>,
) -> Result<Result<TrustAnchor, LocatorReason>, AllocError>
    ensures judged { IfOk result (λ judged.
        let w = world_by D.sha256_digest D.sha1_digest V.says reader.old
        in HoldsAt w locator.now tal.now.key object.now.uri object.now.octets
        → JudgesLocator w locator.now judged) }
    ensures same { SameReader V.says reader.old reader.new }
{
    addresses_are_whole();
    let name = name_of(alloc, locator)?;
    let uri = object.uri.clone()?;
    let key = tal.key_info();
    match anchor_in(alloc, &object.octets, key, name, reader)? {
        Ok(anchor) => {
            let authority = Authority::new(anchor);
            Ok(Ok(TrustAnchor { uri, authority }))
        }
        Err(reason) => Ok(Err(reason)),
    }
}

/// The trust anchor to which the locator leads, by its lookup key and with what it lists (RFC 8630 3); else why it leads to
/// none: its text has a fault, there is no object at any of its URIs, the first that is there is no certificate, or a test
/// of that fails. The verifier is asked at most once.
pub fn judged_locator<D: Digester, V: Verifier>(
    alloc: Global,
    locator: &Locator,
    reader: &mut BundleReader<'_, D, V>,
) -> Result<Result<TrustAnchor, LocatorReason>, AllocError>
    ensures judged { IfOk result (JudgesLocator
        (world_by D.sha256_digest D.sha1_digest V.says reader.old) locator.now) }
    ensures same { SameReader V.says reader.old reader.new }
{
    match follow(alloc, locator, &reader.index)? {
        LocatorLookup::Unreadable(fault) => Ok(Err(LocatorReason::BadText(fault))),
        LocatorLookup::Nowhere => Ok(Err(LocatorReason::NoneHeld)),
        LocatorLookup::Held(object, tal) => {
            let led = lead_to(alloc, locator, object, &tal, reader);
            drop(tal);
            led
        }
    }
}

/// What the locator leads to: nothing that reads, no trust anchor, or a trust anchor's certificate, by its lookup key and
/// with what it lists (RFC 8630 3). The verifier is asked at most once.
pub fn read_locator<D: Digester, V: Verifier>(
    alloc: Global,
    locator: &Locator,
    reader: &mut BundleReader<'_, D, V>,
) -> Result<AnchorLookup<Authority>, AllocError>
    ensures led { IfOk result (IsAnchorLookup cert_of sets_of
        (world_by D.sha256_digest D.sha1_digest V.says reader.old) locator.now) }
    ensures same { SameReader V.says reader.old reader.new }
{
    locator_reasons_refuse();
    match judged_locator(alloc, locator, reader)? {
        Ok(anchor) => {
            let TrustAnchor { uri, authority } = anchor;
            Ok(AnchorLookup::Anchor(uri, authority))
        }
        Err(reason) => match reason {
            LocatorReason::BadText(_) => Ok(AnchorLookup::Unreadable),
            _ => Ok(AnchorLookup::Nowhere),
        },
    }
}

/// Why the locator is refused, or nothing where it leads to a trust anchor. The verifier is asked at most once.
pub fn locator_reason<D: Digester, V: Verifier>(
    alloc: Global,
    locator: &Locator,
    reader: &mut BundleReader<'_, D, V>,
) -> Result<Option<LocatorReason>, AllocError>
    ensures reason { IfOk result (HasLocatorReason
        (world_by D.sha256_digest D.sha1_digest V.says reader.old) locator.now) }
    ensures same { SameReader V.says reader.old reader.new }
{
    locator_reasons_refuse();
    match judged_locator(alloc, locator, reader)? {
        Ok(anchor) => {
            drop(anchor);
            Ok(None)
        }
        Err(reason) => Ok(Some(reason)),
    }
}
