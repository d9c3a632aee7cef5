//! What stands in a bundle, what certificates claim apart: its table of good signatures and its objects ([`table`]), a bundle
//! with what digests and verifies ([`reader`]), what signatures say ([`signed`]), what locators lead to ([`anchors`]), files
//! and revocation lists ([`points`]), what files' names and contents say ([`payloads`]), the attestations at a publication
//! point ([`attested`]); and, here, publication points (RFC 9286 6, RFC 6487 5): the manifest that an authority's certificate
//! names, its files, and its revocation list.
//!
//! What is read here depends on no numbers that are held, so that a judge who climbs may read it too.
#![tactic(auto)]

pub mod anchors;
pub mod attested;
pub mod manifests;
pub mod parts;
pub mod payloads;
pub mod point;
pub mod points;
pub mod reader;
pub mod signed;
pub mod table;

pub use certs_verify::{Cert, Digester, PublicKey, Verifier};
pub use manifests::{find_manifest, manifest_at};
pub use objects_cms::signed::SignedObject;
pub use objects_valid::kinds::{Aspa, Manifest, ManifestContent, Roa};
pub use point::{StandingPoint, standing_point};
pub use points::{Crl, check_revocation, decode, files_of};
pub use reader::BundleReader;
pub use signed::{check_anchor_cert, check_authority_cert, check_content, check_object_cert};
pub use table::{Index, Locator, Object, TableVerifier};
