//! Certificate policies, written (RFC 6487 4.8.9, RFC 8360 4.2).

ghost use Rattle.std.specs.Prelude.{◌≡◌, true};
ghost use Rattle.certs.specs.certs_basics.Identifiers as id;
ghost use Rattle.certs.specs.resources_as.Identifiers.{policy_octets};
ghost use Rattle.certs.specs.Values.{extended, policies};

use crate::written::extension::{ExtensionEncoder, encode_extension};
use crate::written::parts::{Identifier, Sequence};
use certs_extension::{Overclaim, OverclaimIds};
use certs_key::encode::{EncodeError, Values};
use certs_key::oid::CE_CERTIFICATE_POLICIES;
use certs_key::{ConstOid, Mode};
use std::io::Write;
use std::marker::Model;

/// The policy: `SEQUENCE { SEQUENCE { policyIdentifier OBJECT IDENTIFIER } }` (RFC 6487 4.8.9).
/// Contracts see which it is.
#[derive(Drop)]
pub struct PolicyValue(Overclaim);

impl Model for PolicyValue {
    ghost use Rattle.certs.specs.resources_chain.declared.claims.Overclaim.{Overclaim};

    ghost Value = { Overclaim };

    ghost view = { λ v. v.0 };
}

impl PolicyValue {
    // The identifier of the policy.
    fn identifier(&self) -> ConstOid
        ensures { result.0.now ≡ policy_octets self.now }
    {
        self.0.policy_id()
    }
}

impl Values for PolicyValue {
    ghost trees = { λ v. (policies v).trees };

    ghost writes = { λ v. (policies v).writes };

    fn encoded_len(&self, mode: Mode) -> Result<usize, EncodeError> {
        let policy = self.identifier();
        let value = Sequence(Sequence(Identifier(policy)));
        value.encoded_len(mode)
    }

    fn write_encoded<W: Write>(&self, mode: Mode, target: &mut W) -> Result<(), EncodeError> {
        let policy = self.identifier();
        let value = Sequence(Sequence(Identifier(policy)));
        value.write_encoded(mode, target)
    }

    ghost spelled = { λ v. (policies v).spelled };

    ghost one_text = { λ v. (policies v).one_text };
}

/// The extension with the policy, which is critical (RFC 6487 4.8.9).
pub fn policy_extension(policy: Overclaim) -> ExtensionEncoder<PolicyValue>
    ensures { result ≡ extended id.certificate_policies true policy }
{
    encode_extension(CE_CERTIFICATE_POLICIES, true, PolicyValue(policy))
}
