//! Whether what objects attest is within the resources that their certificates hold (RFC 9582 5,
//! draft-ietf-sidrops-aspa-profile 4): of a route origin attestation each prefix, of a provider attestation the customer.

ghost use Rattle.std.specs.Prelude.{◌↔◌, IsTrue};
ghost use Rattle.objects_payload.specs.resources_chain.Sets.{InRuns};
ghost use Rattle.objects_payload.specs.Covered.{AreHeld, IsCoveredAspa, IsCoveredRoa};

use crate::aspa::AsProviderAttestation;
use crate::forms::{AsBlocks, IpBlocks};
use crate::roa::{RoaIpAddresses, RouteOriginAttestation};

// Whether all addresses of each prefix are in the set, which is one of their family.
fn are_held(addresses: &RoaIpAddresses, held: &IpBlocks) -> bool
    ensures { IsTrue result ↔ AreHeld (InRuns held.now) addresses.now }
{
    for address in addresses.iter() {
        if !held.contains_prefix(address.prefix()) {
            return false;
        }
    }
    true
}

/// Whether all prefixes of a route origin attestation are held: those of IPv4, and those of IPv6 (RFC 9582 5). The AS
/// number need not be.
pub fn covers_roa(roa: &RouteOriginAttestation, v4: &IpBlocks, v6: &IpBlocks) -> bool
    ensures { IsTrue result ↔ IsCoveredRoa (InRuns v4.now) (InRuns v6.now) roa.now }
{
    are_held(roa.v4_addrs(), v4) && are_held(roa.v6_addrs(), v6)
}

/// Whether the customer of a provider attestation is held (draft-ietf-sidrops-aspa-profile 4). Its providers need not be.
pub fn covers_aspa(aspa: &AsProviderAttestation, asn: &AsBlocks) -> bool
    ensures { IsTrue result ↔ IsCoveredAspa (InRuns asn.now) aspa.now }
{
    asn.contains_asn(aspa.customer_as())
}
