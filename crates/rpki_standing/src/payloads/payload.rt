//! What an object attests (RFC 9582, draft-ietf-sidrops-aspa-profile).

ghost use Rattle.std.specs.Prelude.{◌≡◌, ◌++◌, OnErr, OnOk, map};
ghost use Rattle.rpki_rules.specs.Views.{origin_of, provision_of};
ghost use Rattle.rpki_rules.specs.Attests.{origins, provisions};
ghost use Rattle.rpki_standing.specs.Views.{payload_of};

use crate::payloads::origins::add_roa_origins;
use crate::payloads::provisions::add_aspa_provisions;
use objects_payload::aspa::AsProviderAttestation;
use objects_payload::roa::RouteOriginAttestation;
use rpki_rules::{Origin, Provision};
use std::alloc::AllocError;

/// What an object attests.
#[derive(Drop)]
pub enum Payload {
    /// Prefixes that an AS number may announce.
    Roa(RouteOriginAttestation),
    /// Providers of a customer.
    Aspa(AsProviderAttestation),
}

impl Payload {
    /// Adds the origins that the object names; none of a provider attestation. Refused for lack of memory alone, and then
    /// nothing is added.
    pub fn add_origins(&self, out: &mut Vec<Origin>) -> Result<(), AllocError>
        ensures ok { OnOk result (map origin_of out.new.items
            ≡ map origin_of out.old.items ++ origins (payload_of self.now)) }
        ensures err { OnErr result (out.new.items ≡ out.old.items) }
    {
        match self {
            Payload::Roa(content) => add_roa_origins(content, out),
            Payload::Aspa(_) => Ok(()),
        }
    }

    /// Adds the customer with each of the providers that the object names; nothing of a route origin attestation. Refused
    /// for lack of memory alone, and then nothing is added.
    pub fn add_provisions(&self, out: &mut Vec<Provision>) -> Result<(), AllocError>
        ensures ok { OnOk result (map provision_of out.new.items
            ≡ map provision_of out.old.items ++ provisions (payload_of self.now)) }
        ensures err { OnErr result (out.new.items ≡ out.old.items) }
    {
        match self {
            Payload::Roa(_) => Ok(()),
            Payload::Aspa(content) => add_aspa_provisions(content, out),
        }
    }
}
