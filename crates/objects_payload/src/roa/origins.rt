//! The origins that a route origin attestation names, one by one.

ghost use Rattle.std.specs.Prelude.{◌≡◌, map};
ghost use Rattle.std.specs.Iterator.{YieldsFirstBy, item_count};
ghost use Rattle.objects_payload.specs.resources_asn.Origins.{origin_value};
ghost use Rattle.objects_payload.specs.Friendly.{friends, origin_by};

use crate::roa::attestation::RouteOriginAttestation;
use crate::roa::friendly::FriendlyRoaIpAddressIter;
use resources_asn::{Asn, Origin};
use std::marker::Model;

/// The origins, those of IPv4 first. Contracts see the list of those that are left.
#[derive(Clone, Debug, Drop)]
pub struct RouteOriginIter<'a> {
    asn: Asn,
    addresses: FriendlyRoaIpAddressIter<'a>,
}

impl<'a> Model for RouteOriginIter<'a> {
    ghost use Rattle.std.specs.Prelude.{List, map};
    ghost use Rattle.objects_payload.specs.resources_asn.Origins.{OriginValue};
    ghost use Rattle.objects_payload.specs.Friendly.{origin_by};

    ghost Value = { List OriginValue };

    ghost view = { λ i. map (origin_by i.asn.value) i.addresses };
}

impl RouteOriginAttestation {
    /// Each prefix with its greatest length, its own where none is given, and the AS number: those of IPv4 first.
    pub fn iter_origins(&self) -> RouteOriginIter<'_>
        ensures { result ≡ map (origin_by self.now.asn) (friends self.now.v4 self.now.v6) }
    {
        RouteOriginIter {
            asn: self.as_id(),
            addresses: self.iter(),
        }
    }
}

impl<'a> Iterator for RouteOriginIter<'a> {
    type Item = Origin;

    ghost next_gives = { YieldsFirstBy origin_value (λ s. s) };

    ghost remaining = { item_count (λ s. s) };

    fn next(&mut self) -> Option<Origin> {
        let address = self.addresses.next()?;
        Some(Origin {
            prefix: address.prefix(),
            max_len: address.max_length(),
            asn: self.asn,
        })
    }
}
