//! A signed object with what it attests.

ghost use Rattle.std.specs.Prelude.{◌≡◌};
ghost use Rattle.rpki_standing.specs.Views.{payload_of};
ghost use Rattle.rpki_rules.specs.Attests.{OfAspa, OfRoa};

use crate::payloads::Payload;
use crate::{Aspa, Cert, Roa, SignedObject};
use std::marker::Model;

/// A signed object, and what it attests. Contracts see both.
#[derive(Drop)]
pub struct Published {
    signed: SignedObject,
    payload: Payload,
}

impl Model for Published {
    ghost use Rattle.rpki_standing.specs.Published.{PublishedValue};
    ghost use Rattle.rpki_standing.specs.Views.{payload_of};

    ghost Value = { PublishedValue };

    ghost view = { λ p. record { object = p.signed; payload = payload_of p.payload } };
}

// Of what was read.
impl Published {
    // The route origin attestation, with what its content says (RFC 9582 3).
    pub(crate) fn from_roa(roa: Roa) -> Self
        ensures object { result.object ≡ roa.signed }
        ensures payload { result.payload ≡ OfRoa roa.content }
    {
        let (signed, content) = roa.into_parts();
        let payload = Payload::Roa(content);
        Published { signed, payload }
    }

    // The provider attestation, with what its content says (draft-ietf-sidrops-aspa-profile 3).
    pub(crate) fn from_aspa(aspa: Aspa) -> Self
        ensures object { result.object ≡ aspa.signed }
        ensures payload { result.payload ≡ OfAspa aspa.content }
    {
        let (signed, content) = aspa.into_parts();
        let payload = Payload::Aspa(content);
        Published { signed, payload }
    }
}

/// The parts.
impl Published {
    /// The signed object.
    pub fn signed(&self) -> &SignedObject
        ensures { result.now ≡ self.now.object }
    {
        &self.signed
    }

    /// The certificate with the signer's key (RFC 6488 2.1.4).
    pub fn cert(&self) -> &Cert
        ensures { result.now ≡ self.now.object.cert }
    {
        self.signed.cert()
    }

    /// What is attested.
    pub fn payload(&self) -> &Payload
        ensures { payload_of result.now ≡ self.now.payload }
    {
        &self.payload
    }

    /// What is attested, handed over.
    pub fn into_payload(self) -> Payload
        ensures { payload_of result ≡ self.payload }
    {
        let Published { signed, payload } = self;
        drop(signed);
        payload
    }
}
