//! Extended key usage (RFC 5280 4.2.1.12).

ghost use Rattle.std.specs.Prelude.{◌≡◌, ◌↔◌, [], ◌∷◌, true, map, IsTrue, IfErr, IfOk, OnErr, OnOk};
ghost use Rattle.certs_extension.specs.bcder_tree.Tags.{sequence_tag};
ghost use Rattle.certs_extension.specs.bcder_content.Exact.{ReadsAs};
ghost use Rattle.certs_extension.specs.bcder_content.Here.{here};
ghost use Rattle.certs_extension.specs.bcder_content.InMode.{ReadsFields};
ghost use Rattle.certs_extension.specs.certs_basics.Identifiers.{bgpsec_router};
ghost use Rattle.certs_extension.specs.certs_basics.Lists.{Mem};
ghost use Rattle.certs_extension.specs.Extensions.{IsExtendedKeyUsage};
ghost use Rattle.certs_extension.specs.Purposes.{AreKeyPurposes, AreOids, ArePurposes, lends, purpose_octets};

use crate::forms::InspectionError;
use bytes::Bytes;
use certs_basics::oid::KP_BGPSEC_ROUTER;
use certs_key::decode::{Constructed, ContentError, DecodeError, Source};
use certs_key::encode::{
    self, EncodeError, Encodes, Primitive, PrimitiveContent, Values, sequence, slice,
};
use certs_key::{Mode, Oid};
use std::alloc::{AllocError, Global};
use std::io::Write;
use std::marker::Model;

/// What a key may be used for, one purpose at least (RFC 5280 4.2.1.12). Contracts see the purposes in their order, each
/// by the content octets of its identifier.
#[derive(Debug, Drop)]
pub struct ExtendedKeyUsage {
    purposes: Vec<Oid>,
}

impl Model for ExtendedKeyUsage {
    ghost use Rattle.std.specs.Prelude.{List, ℕ, map};
    ghost use Rattle.certs_extension.specs.Purposes.{AreKeyPurposes, purpose_octets};

    ghost Value = { List (List ℕ) };

    ghost view = { λ u. map purpose_octets u.purposes.items };

    ghost invariant = { λ u. AreKeyPurposes (map purpose_octets u.purposes.items) };
}

// Each purpose as an OBJECT IDENTIFIER, by the octets that it has.
#[derive(Clone, Copy, Drop)]
struct AsOids;

impl<'a> Encodes<'a, Oid> for AsOids {
    ghost use Rattle.certs_extension.specs.bcder.Kinds.{oid};

    type Given = Primitive<&'a Oid>;

    ghost trees = { λ e x m. oid.trees x.0 m };

    ghost writes = { λ e x m. oid.writes x.0 m };

    fn values_of(&self, item: &'a Oid) -> Primitive<&'a Oid> {
        item.encode_ref()
    }

    ghost spelled = { λ e x m. oid.spelled x.0 m };

    ghost one_text = { λ e x m. oid.one_text x.0 m };
}

// All purposes of a content, if there are any.
fn take_oids<S: Source>(
    alloc: Global,
    cons: &mut Constructed<S>,
) -> Result<Vec<Oid>, DecodeError<S::Error>>
    ensures { ReadsFields (λ v. map purpose_octets v.items) AreOids
        (here S.rest cons.old) result (here S.rest cons.new) }
{
    let mut purposes = Vec::new(alloc);
    while let Some(purpose) = Oid::take_opt_from(alloc, cons)? {
        purposes.push(purpose)?;
    }
    Ok(purposes)
}

// Whether there are no purposes.
fn is_none(purposes: &[Oid]) -> bool
    ensures { IsTrue result ↔ (map purpose_octets purposes.now ≡ []) }
{
    purposes.split_first().is_none()
}

// All purposes of a content, of which there is one at least.
fn take_purposes<S: Source>(
    alloc: Global,
    cons: &mut Constructed<S>,
) -> Result<ExtendedKeyUsage, DecodeError<S::Error>>
    ensures { ReadsFields (λ u. u) ArePurposes
        (here S.rest cons.old) result (here S.rest cons.new) }
{
    let purposes = take_oids(alloc, cons)?;
    if is_none(purposes.as_slice()) {
        return Err((*cons).content_err(ContentError::from_static("no key purpose")));
    }
    Ok(ExtendedKeyUsage { purposes })
}

// Whether it is one of the purposes.
fn has(purposes: &[Oid], wanted: &[u8]) -> bool
    ensures { IsTrue result ↔ Mem (map purpose_octets purposes.now) wanted.now }
{
    let mut rest = purposes;
    while let Some((first, others)) = rest.split_first() {
        if first.as_slice() == wanted {
            return true;
        }
        rest = others;
    }
    false
}

impl ExtendedKeyUsage {
    /// The purposes: `SEQUENCE SIZE (1..MAX) OF KeyPurposeId`, whatever they are (RFC 5280 4.2.1.12). Where the source
    /// shares its octets none is copied.
    pub fn take_from<S: Source>(
        alloc: Global,
        cons: &mut Constructed<S>,
    ) -> Result<Self, DecodeError<S::Error>>
        ensures reads { ReadsAs (λ u. u) IsExtendedKeyUsage
            (here S.rest cons.old) result (here S.rest cons.new) }
        ensures failed { OnErr result ((here S.rest cons.new).failed ≡ true) }
    {
        cons.take_sequence(
            |cons|
                ensures { ReadsFields (λ u. u) ArePurposes
                    (here S.rest cons.old) result (here S.rest cons.new) }
            { take_purposes(alloc, cons) },
        )
    }

    // The purposes, in a SEQUENCE.
    fn as_values(&self) -> encode::Constructed<encode::Slice<'_, Oid, AsOids>>
        ensures { lends result.tag (map purpose_octets result.inner.items.now)
            ≡ lends sequence_tag self.now }
    {
        sequence(slice(self.purposes.as_slice(), AsOids))
    }

    /// Whether a router's key may have these purposes: `NotRouterUsage` exactly where id-kp-bgpsec-router isn't among
    /// them (RFC 8209 3.1.3.2). There is one purpose at least, and each is an identifier.
    pub fn inspect_router(&self) -> Result<(), InspectionError>
        ensures lawful { AreKeyPurposes self.now }
        ensures ok { OnOk result (Mem self.now bgpsec_router) }
        ensures refused { OnErr result (¬ (Mem self.now bgpsec_router)) }
        ensures error { IfErr result (λ e. e ≡ InspectionError.NotRouterUsage) }
    {
        if has(self.purposes.as_slice(), KP_BGPSEC_ROUTER.0) {
            return Ok(());
        }
        Err(InspectionError::NotRouterUsage)
    }

    /// The purpose of a router's key alone, id-kp-bgpsec-router (RFC 8209 3.1.3.2).
    pub fn create_router(alloc: Global) -> Result<Self, AllocError>
        ensures { IfOk result (λ u. u ≡ bgpsec_router ∷ []) }
    {
        let mut purposes = Vec::new(alloc);
        purposes.push(Oid(Bytes::from_static(KP_BGPSEC_ROUTER.0)))?;
        Ok(ExtendedKeyUsage { purposes })
    }
}

/// A SEQUENCE of the purposes, each by its octets, whatever they are.
///
/// `TooLong` where a content has more than 2^32 - 1 octets.
impl Values for ExtendedKeyUsage {
    ghost use Rattle.certs_extension.specs.Purposes.{purposes};

    ghost trees = { λ u. purposes.trees u };

    ghost writes = { λ u. purposes.writes u };

    fn encoded_len(&self, mode: Mode) -> Result<usize, EncodeError> {
        let value = self.as_values();
        value.encoded_len(mode)
    }

    fn write_encoded<W: Write>(&self, mode: Mode, target: &mut W) -> Result<(), EncodeError> {
        let value = self.as_values();
        value.write_encoded(mode, target)
    }

    ghost spelled = { λ u. purposes.spelled u };

    ghost one_text = { λ u. purposes.one_text u };
}

/// A clone has the same purposes. Their octets aren't copied, but the list takes memory.
impl Clone for ExtendedKeyUsage {
    ghost is_clone = { λ usage copy. copy ≡ usage };

    fn clone(&self) -> Result<Self, AllocError> {
        let purposes = self.purposes.clone()?;
        Ok(ExtendedKeyUsage { purposes })
    }
}
