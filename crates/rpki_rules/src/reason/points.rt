//! Why a publication point is refused (RFC 9286 6).

use crate::reason::certs::{CertTest, ContentTest};
use bytes::Bytes;
use certs_x509::Overclaimed;

/// A file that a manifest lists.
#[derive(Drop)]
pub struct ListedFile {
    /// Its name.
    pub name: Bytes,
    /// Its hash.
    pub hash: Bytes,
}

/// A test of a manifest that reads (RFC 9286 6.2 to 6.5, RFC 6487 5).
#[derive(Drop)]
pub enum ManifestTest {
    /// Its update isn't to come.
    ThisUpdate,
    /// Its next update isn't past.
    NextUpdate,
    /// Of its certificate.
    ManifestCert(CertTest),
    /// Of its content.
    ManifestContent(ContentTest),
    /// The authority has a folder for its files.
    Folder,
    /// No two files have one name.
    NamesDiffer,
    /// This file is there.
    FileHeld(ListedFile),
    /// It has the hash that is listed.
    FileHash(ListedFile),
    /// The manifest's certificate names a revocation list.
    ListNamed,
    /// That list is one of the files.
    ListListed,
}

/// A test of the revocation list that a manifest's certificate names (RFC 5280 5.2.1, 5.1.2.4, 5.1.2.5; RFC 6487 5), and
/// the claim of that certificate.
#[derive(Drop)]
pub enum ListTest {
    /// It is the authority's, by its key identifier.
    ListAuthority,
    /// Its update isn't to come.
    ListThisUpdate,
    /// Its next update isn't past.
    ListNextUpdate,
    /// The manifest's certificate isn't on it.
    NotOnList,
    /// The authority's key signed it.
    ListSignature,
    /// The manifest's certificate claims nothing else than is held (RFC 6487 7.2, RFC 8360 4.2): these numbers it claims,
    /// and they aren't held.
    ManifestClaim(Overclaimed),
}

/// Why a publication point is refused.
#[derive(Drop)]
pub enum PointReason {
    /// There is no manifest.
    NoManifest,
    /// The manifest doesn't read.
    BadManifest,
    /// The manifest fails this test.
    ManifestFails(ManifestTest),
    /// The revocation list doesn't read.
    BadList,
    /// The revocation list fails this test, or the claim of the manifest's certificate does.
    ListFails(ListTest),
}
