//! Signed checklists, as signed objects (RFC 9323 3).
//!
//! One is read of a source in DER, or where not strict in BER; its content is DER in both. Reading it verifies nothing;
//! `verify_content` answers whether its signer signed it, and `process_at` whether it is accepted below an issuer.

ghost use Rattle.objects.specs.Checklists.{IsChecklist, signed_checklist};
ghost use Rattle.objects.specs.bcder_tree.declared.mode.Mode.TheVariants.{Der};

use crate::rsc::checklist::ResourceSignedChecklist;
use bytes::Bytes;
use certs_key::decode::DecodeError;
use objects_cms::oid::CT_SIGNED_CHECKLIST;
use objects_valid::{Signed, SignedContent};
use std::alloc::Global;
use std::convert::Infallible;

/// A signed checklist (RFC 9323 3).
pub type Rsc = Signed<ResourceSignedChecklist>;

impl SignedContent for ResourceSignedChecklist {
    ghost kind = { signed_checklist };

    ghost says = { IsChecklist Der };

    fn content_type() -> &'static [u8] {
        CT_SIGNED_CHECKLIST.0
    }

    fn from_content(alloc: Global, octets: Bytes) -> Result<Self, DecodeError<Infallible>> {
        ResourceSignedChecklist::decode(alloc, octets)
    }
}
