//! Contents of route origin attestations that are put together (RFC 9582 4).

ghost use Rattle.std.specs.Prelude.{◌≡◌, ◌≤◌, ◌∷◌, ◌++◌, [], IfOk, OnErr, OnOk, map};
ghost use Rattle.std.specs.declared.net.ip_addr.IpAddr.TheVariants.{V4, V6};
ghost use Rattle.objects_payload.specs.resources_ip_prefix.declared.addr.AddressFamily.TheVariants.{Ipv4, Ipv6};
ghost use Rattle.objects_payload.specs.Addresses.{AllOf, address_from, roa_address, with_address};

use crate::roa::address::RoaIpAddress;
use crate::roa::addresses::RoaIpAddresses;
use crate::roa::attestation::RouteOriginAttestation;
use resources_asn::Asn;
use std::alloc::{AllocError, Global};
use std::marker::Model;
use std::net::{IpAddr, Ipv4Addr, Ipv6Addr};

/// Addresses of one family that are put together. Contracts see their list.
#[derive(Debug, Drop)]
pub struct RoaIpAddressesBuilder {
    addresses: Vec<RoaIpAddress>,
}

impl Model for RoaIpAddressesBuilder {
    ghost use Rattle.std.specs.Prelude.{List, map};
    ghost use Rattle.objects_payload.specs.Roas.{RoaAddress};
    ghost use Rattle.objects_payload.specs.Addresses.{roa_address};

    ghost Value = { List RoaAddress };

    ghost view = { λ b. map roa_address b.addresses.items };
}

impl RoaIpAddressesBuilder {
    /// No addresses.
    pub fn new(alloc: Global) -> Self
        ensures { result ≡ [] }
    {
        RoaIpAddressesBuilder {
            addresses: Vec::new(alloc),
        }
    }

    /// One address more. Where memory is wanting nothing is added.
    pub fn push(&mut self, address: RoaIpAddress) -> Result<(), AllocError>
        ensures ok { OnOk result (self.new ≡ self.old ++ roa_address address ∷ []) }
        ensures err { OnErr result (self.new ≡ self.old) }
    {
        self.addresses.push(address)?;
        Ok(())
    }

    /// The prefix of the address's first `len` bits, at most 128, more. Where memory is wanting nothing is added.
    pub fn push_addr(
        &mut self,
        addr: IpAddr,
        len: u8,
        max_length: Option<u8>,
    ) -> Result<(), AllocError>
        requires { len ≤ 128 }
        ensures ok { OnOk result (self.new ≡ self.old ++ address_from addr len max_length ∷ []) }
        ensures err { OnErr result (self.new ≡ self.old) }
    {
        self.push(RoaIpAddress::new_addr(addr, len, max_length))
    }

    /// All of the addresses more. Where memory is wanting nothing is added.
    pub fn extend_from_slice(&mut self, addresses: &[RoaIpAddress]) -> Result<(), AllocError>
        ensures ok { OnOk result (self.new ≡ self.old ++ map roa_address addresses.now) }
        ensures err { OnErr result (self.new ≡ self.old) }
    {
        self.addresses.extend_from_slice(addresses)?;
        Ok(())
    }

    /// The addresses.
    pub fn to_addresses(&self, alloc: Global) -> Result<RoaIpAddresses, AllocError>
        ensures { IfOk result (λ l. l ≡ self.now) }
    {
        RoaIpAddresses::from_slice(alloc, &self.addresses)
    }
}

/// A content that is put together. Contracts see the AS number and the addresses of each family.
#[derive(Debug, Drop)]
pub struct RoaBuilder {
    as_id: Asn,
    v4: RoaIpAddressesBuilder,
    v6: RoaIpAddressesBuilder,
}

impl Model for RoaBuilder {
    ghost use Rattle.objects_payload.specs.Roas.{Roa};

    ghost Value = { Roa };

    ghost view = { λ b. record { asn = b.as_id.value; v4 = b.v4; v6 = b.v6 } };
}

impl RoaBuilder {
    /// The AS number, without addresses.
    pub fn new(alloc: Global, as_id: Asn) -> Self
        ensures { result ≡ record { asn = as_id.value; v4 = []; v6 = [] } }
    {
        RoaBuilder {
            as_id,
            v4: RoaIpAddressesBuilder::new(alloc),
            v6: RoaIpAddressesBuilder::new(alloc),
        }
    }

    /// The AS number with these addresses.
    pub fn with_addresses(as_id: Asn, v4: RoaIpAddressesBuilder, v6: RoaIpAddressesBuilder) -> Self
        ensures { result ≡ record { asn = as_id.value; v4 = v4; v6 = v6 } }
    {
        RoaBuilder { as_id, v4, v6 }
    }

    /// The AS number.
    pub fn as_id(&self) -> Asn
        ensures { result.value ≡ self.now.asn }
    {
        self.as_id
    }

    /// Another AS number.
    pub fn set_as_id(&mut self, as_id: Asn)
        ensures { self.new ≡ record { asn = as_id.value; v4 = self.old.v4; v6 = self.old.v6 } }
    {
        self.as_id = as_id;
    }

    /// The addresses of IPv4.
    pub fn v4(&self) -> &RoaIpAddressesBuilder
        ensures { result.now ≡ self.now.v4 }
    {
        &self.v4
    }

    /// The addresses of IPv6.
    pub fn v6(&self) -> &RoaIpAddressesBuilder
        ensures { result.now ≡ self.now.v6 }
    {
        &self.v6
    }

    /// One address of IPv4 more. Where memory is wanting nothing is added.
    pub fn push_v4(&mut self, address: RoaIpAddress) -> Result<(), AllocError>
        ensures ok { OnOk result (self.new ≡ record {
          asn = self.old.asn;
          v4 = self.old.v4 ++ roa_address address ∷ [];
          v6 = self.old.v6;
        }) }
        ensures err { OnErr result (self.new ≡ self.old) }
    {
        self.v4.push(address)
    }

    /// One address of IPv6 more. Where memory is wanting nothing is added.
    pub fn push_v6(&mut self, address: RoaIpAddress) -> Result<(), AllocError>
        ensures ok { OnOk result (self.new ≡ record {
          asn = self.old.asn;
          v4 = self.old.v4;
          v6 = self.old.v6 ++ roa_address address ∷ [];
        }) }
        ensures err { OnErr result (self.new ≡ self.old) }
    {
        self.v6.push(address)
    }

    /// The prefix of the IPv4 address's first `len` bits more. Where memory is wanting nothing is added.
    pub fn push_v4_addr(
        &mut self,
        addr: Ipv4Addr,
        len: u8,
        max_length: Option<u8>,
    ) -> Result<(), AllocError>
        requires { len ≤ 128 }
        ensures ok { OnOk result (self.new
            ≡ with_address self.old (V4 addr) (address_from (V4 addr) len max_length)) }
        ensures err { OnErr result (self.new ≡ self.old) }
    {
        self.v4.push_addr(IpAddr::V4(addr), len, max_length)
    }

    /// The prefix of the IPv6 address's first `len` bits more. Where memory is wanting nothing is added.
    pub fn push_v6_addr(
        &mut self,
        addr: Ipv6Addr,
        len: u8,
        max_length: Option<u8>,
    ) -> Result<(), AllocError>
        requires { len ≤ 128 }
        ensures ok { OnOk result (self.new
            ≡ with_address self.old (V6 addr) (address_from (V6 addr) len max_length)) }
        ensures err { OnErr result (self.new ≡ self.old) }
    {
        self.v6.push_addr(IpAddr::V6(addr), len, max_length)
    }

    /// The prefix of the address's first `len` bits more, of either family. Where memory is wanting nothing is added.
    pub fn push_addr(
        &mut self,
        addr: IpAddr,
        len: u8,
        max_length: Option<u8>,
    ) -> Result<(), AllocError>
        requires { len ≤ 128 }
        ensures ok { OnOk result (self.new
            ≡ with_address self.old addr (address_from addr len max_length)) }
        ensures err { OnErr result (self.new ≡ self.old) }
    {
        match addr {
            IpAddr::V4(addr) => self.push_v4_addr(addr, len, max_length),
            IpAddr::V6(addr) => self.push_v6_addr(addr, len, max_length),
        }
    }

    /// All of the addresses of IPv4 more. Where memory is wanting nothing is added.
    pub fn extend_v4_from_slice(&mut self, addresses: &[RoaIpAddress]) -> Result<(), AllocError>
        ensures ok { OnOk result (self.new ≡ record {
          asn = self.old.asn;
          v4 = self.old.v4 ++ map roa_address addresses.now;
          v6 = self.old.v6;
        }) }
        ensures err { OnErr result (self.new ≡ self.old) }
    {
        self.v4.extend_from_slice(addresses)
    }

    /// All of the addresses of IPv6 more. Where memory is wanting nothing is added.
    pub fn extend_v6_from_slice(&mut self, addresses: &[RoaIpAddress]) -> Result<(), AllocError>
        ensures ok { OnOk result (self.new ≡ record {
          asn = self.old.asn;
          v4 = self.old.v4;
          v6 = self.old.v6 ++ map roa_address addresses.now;
        }) }
        ensures err { OnErr result (self.new ≡ self.old) }
    {
        self.v6.extend_from_slice(addresses)
    }

    /// The content, of addresses that are of their families. Refused for lack of memory alone.
    pub fn to_attestation(&self, alloc: Global) -> Result<RouteOriginAttestation, AllocError>
        requires v4 { AllOf Ipv4 self.now.v4 }
        requires v6 { AllOf Ipv6 self.now.v6 }
        ensures { IfOk result (λ r. r ≡ self.now) }
    {
        let v4 = self.v4.to_addresses(alloc)?;
        let v6 = self.v6.to_addresses(alloc)?;
        Ok(RouteOriginAttestation::new(self.as_id, v4, v6))
    }
}
