//! What the contents of signed objects say, by their types.

ghost use Rattle.objects_payload.specs.Aspas.{IsAspa};
ghost use Rattle.objects_payload.specs.Identifiers.{manifest, provider_authorization, route_origin};
ghost use Rattle.objects_payload.specs.Manifests.{IsManifest};
ghost use Rattle.objects_payload.specs.Roas.{IsRoa};

use crate::kinds::SignedContent;
use bcder::decode::DecodeError;
use bytes::Bytes;
use objects_cms::manifest::ManifestContent;
use objects_cms::oid::{CT_ASPA, CT_ROUTE_ORIGIN_AUTHZ, CT_RPKI_MANIFEST};
use objects_payload::aspa::AsProviderAttestation;
use objects_payload::roa::RouteOriginAttestation;
use std::alloc::Global;
use std::convert::Infallible;

impl SignedContent for ManifestContent {
    ghost kind = { manifest };

    ghost says = { IsManifest };

    fn content_type() -> &'static [u8] {
        CT_RPKI_MANIFEST.0
    }

    fn from_content(alloc: Global, octets: Bytes) -> Result<Self, DecodeError<Infallible>> {
        ManifestContent::decode(alloc, octets)
    }
}

impl SignedContent for RouteOriginAttestation {
    ghost kind = { route_origin };

    ghost says = { IsRoa };

    fn content_type() -> &'static [u8] {
        CT_ROUTE_ORIGIN_AUTHZ.0
    }

    fn from_content(alloc: Global, octets: Bytes) -> Result<Self, DecodeError<Infallible>> {
        RouteOriginAttestation::decode(alloc, octets)
    }
}

impl SignedContent for AsProviderAttestation {
    ghost kind = { provider_authorization };

    ghost says = { IsAspa };

    fn content_type() -> &'static [u8] {
        CT_ASPA.0
    }

    fn from_content(alloc: Global, octets: Bytes) -> Result<Self, DecodeError<Infallible>> {
        AsProviderAttestation::decode(alloc, octets)
    }
}
