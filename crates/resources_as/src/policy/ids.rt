//! The identifiers of a policy, and the policy of an identifier.

ghost use Rattle.std.specs.Prelude.{◌≡◌, MatchOption};
ghost use Rattle.resources_chain.specs.declared.claims.Overclaim.{Overclaim as Policy};
ghost use Rattle.resources_as.specs.Identifiers.{policy_octets, ip_octets, as_octets};

use resources_asn::{ConstOid, Oid};
use resources_chain::Overclaim;
use std::convert::AsSlice;

/// id-cp-ipAddr-asNumber: the policy `Refuse` (RFC 6484 1.2).
const CP_IPADDR_ASNUMBER: ConstOid = Oid(&[43, 6, 1, 5, 5, 7, 14, 2]);

/// id-cp-ipAddr-asNumber-v2: the policy `Trim` (RFC 8360 4.2).
const CP_IPADDR_ASNUMBER_V2: ConstOid = Oid(&[43, 6, 1, 5, 5, 7, 14, 3]);

/// id-pe-ipAddrBlocks: IP resources under `Refuse` (RFC 3779 2.2.1).
const PE_IP_ADDR_BLOCK: ConstOid = Oid(&[43, 6, 1, 5, 5, 7, 1, 7]);

/// id-pe-ipAddrBlocks-v2: IP resources under `Trim` (RFC 8360 4.2).
const PE_IP_ADDR_BLOCK_V2: ConstOid = Oid(&[43, 6, 1, 5, 5, 7, 1, 28]);

/// id-pe-autonomousSysIds: AS resources under `Refuse` (RFC 3779 3.2.1).
const PE_AUTONOMOUS_SYS_IDS: ConstOid = Oid(&[43, 6, 1, 5, 5, 7, 1, 8]);

/// id-pe-autonomousSysIds-v2: AS resources under `Trim` (RFC 8360 4.2).
const PE_AUTONOMOUS_SYS_IDS_V2: ConstOid = Oid(&[43, 6, 1, 5, 5, 7, 1, 29]);

/// The object identifiers of a policy: of the policy itself, and of the extensions that list resources under it.
///
/// Identifiers are equal exactly where their octets are.
pub trait OverclaimIds: Sized {
    // The policy.
    ghost policy: { Self → Policy };

    /// The identifier of the certificate policy.
    fn policy_id(self) -> ConstOid
        ensures { result.0.now ≡ policy_octets (policy self) };

    /// The identifier of the extension that lists IP resources.
    fn ip_res_id(self) -> ConstOid
        ensures { result.0.now ≡ ip_octets (policy self) };

    /// The identifier of the extension that lists AS resources.
    fn as_res_id(self) -> ConstOid
        ensures { result.0.now ≡ as_octets (policy self) };

    /// The policy with that identifier; none where it is no policy's.
    fn from_policy<T: AsSlice<u8>>(oid: &Oid<T>) -> Option<Self>
        ensures { MatchOption result ((m : Policy) → ¬ (T.items oid.now.0 ≡ policy_octets m))
            (λ m. T.items oid.now.0 ≡ policy_octets (policy m)) };

    /// The policy under which the extension with that identifier lists IP resources; none of another extension.
    fn from_ip_res<T: AsSlice<u8>>(oid: &Oid<T>) -> Option<Self>
        ensures { MatchOption result ((m : Policy) → ¬ (T.items oid.now.0 ≡ ip_octets m))
            (λ m. T.items oid.now.0 ≡ ip_octets (policy m)) };

    /// The policy under which the extension with that identifier lists AS resources; none of another extension.
    fn from_as_res<T: AsSlice<u8>>(oid: &Oid<T>) -> Option<Self>
        ensures { MatchOption result ((m : Policy) → ¬ (T.items oid.now.0 ≡ as_octets m))
            (λ m. T.items oid.now.0 ≡ as_octets (policy m)) };
}

impl OverclaimIds for Overclaim {
    ghost policy = { λ m. m };

    fn policy_id(self) -> ConstOid {
        match self {
            Overclaim::Refuse => CP_IPADDR_ASNUMBER,
            Overclaim::Trim => CP_IPADDR_ASNUMBER_V2,
        }
    }

    fn ip_res_id(self) -> ConstOid {
        match self {
            Overclaim::Refuse => PE_IP_ADDR_BLOCK,
            Overclaim::Trim => PE_IP_ADDR_BLOCK_V2,
        }
    }

    fn as_res_id(self) -> ConstOid {
        match self {
            Overclaim::Refuse => PE_AUTONOMOUS_SYS_IDS,
            Overclaim::Trim => PE_AUTONOMOUS_SYS_IDS_V2,
        }
    }

    fn from_policy<T: AsSlice<u8>>(oid: &Oid<T>) -> Option<Self> {
        if oid.equals(&CP_IPADDR_ASNUMBER) {
            Some(Overclaim::Refuse)
        } else if oid.equals(&CP_IPADDR_ASNUMBER_V2) {
            Some(Overclaim::Trim)
        } else {
            None
        }
    }

    fn from_ip_res<T: AsSlice<u8>>(oid: &Oid<T>) -> Option<Self> {
        if oid.equals(&PE_IP_ADDR_BLOCK) {
            Some(Overclaim::Refuse)
        } else if oid.equals(&PE_IP_ADDR_BLOCK_V2) {
            Some(Overclaim::Trim)
        } else {
            None
        }
    }

    fn from_as_res<T: AsSlice<u8>>(oid: &Oid<T>) -> Option<Self> {
        if oid.equals(&PE_AUTONOMOUS_SYS_IDS) {
            Some(Overclaim::Refuse)
        } else if oid.equals(&PE_AUTONOMOUS_SYS_IDS_V2) {
            Some(Overclaim::Trim)
        } else {
            None
        }
    }
}
