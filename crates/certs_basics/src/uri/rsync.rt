//! `Rsync`.

ghost use Rattle.std.specs.Prelude.{◌≡◌, ◌≢◌, ◌↔◌, All, IsTrue, IsOk, IfOk, IfErr, Some, None};
ghost use Rattle.certs_basics.specs.bcder_tree.Tags.{context};
ghost use Rattle.certs_basics.specs.Made.{MakesIf};
ghost use Rattle.certs_basics.specs.Paths.{IsIdenticalTo, join as joined, parent as parent_of};
ghost use Rattle.certs_basics.specs.Uris.{IsRsync, IsUriOctet, lookup_key as key_of};
ghost use Rattle.certs_basics.specs.declared.uri.error.Error.TheVariants.{Memory};

use crate::uri::error::Error;
use crate::uri::{grammar, paths};
use bcder::string::OctetSliceEncoder;
use bcder::{OctetString, Tag};
use bytes::{ByteStr, Bytes};
use std::alloc::{AllocError, Global};
use std::fmt;
use std::marker::Model;

/// An rsync URI (RFC 5781 section 2): `rsync://`, in any case, a host, a slash and a module, and then nothing or a
/// slash and a path, all of it in octets 21 to 7E.
///
/// Contracts see the text. Equality, order and hash are those of the text, and mind case everywhere.
#[derive(Debug, Drop, PartialEq, Eq, PartialOrd, Ord, Hash)]
pub struct Rsync {
    text: ByteStr,
}

impl Model for Rsync {
    ghost use Rattle.std.specs.Prelude.{List, ℕ};
    ghost use Rattle.certs_basics.specs.Uris.{IsRsync};

    ghost Value = { List ℕ };

    ghost view = { λ uri. uri.text };

    ghost invariant = { λ uri. IsRsync uri.text };

    ghost inverse = { λ octets. record { text = octets } };
}

/// URIs that are made.
impl Rsync {
    // The URI of a text that is one.
    fn of_uri(octets: Bytes) -> Rsync
        requires { IsRsync octets }
        ensures { result ≡ octets }
    {
        Rsync {
            text: ByteStr::from_known_utf8(octets),
        }
    }

    /// The URI of this text, if it is an rsync URI. No octet is copied, and no memory is taken.
    pub fn from_bytes(octets: Bytes) -> Result<Rsync, Error>
        ensures uri { MakesIf (IsRsync octets) octets result }
        ensures no_memory { IfErr result (λ e. e ≢ Memory) }
    {
        if !grammar::is_rsync(octets.as_slice()) {
            return Err(Error::BadUri);
        }
        Ok(Rsync::of_uri(octets))
    }

    /// The URI of a copy of this text, if it is an rsync URI.
    pub fn from_slice(alloc: Global, octets: &[u8]) -> Result<Rsync, Error>
        ensures { MakesIf (IsRsync octets.now) octets.now result }
    {
        if !grammar::is_rsync(octets) {
            return Err(Error::BadUri);
        }
        match Bytes::copy_from_slice(alloc, octets) {
            Ok(octets) => Ok(Rsync::of_uri(octets)),
            Err(_) => Err(Error::Memory),
        }
    }

    /// The URI with one slash at its end and the name after it, if the name is written in octets 21 to 7E. Slashes
    /// in the name are kept, and it may be empty.
    pub fn join(&self, alloc: Global, name: &[u8]) -> Result<Rsync, Error>
        ensures { MakesIf (All IsUriOctet name.now) (joined self.now name.now) result }
    {
        if !grammar::is_plain(name) {
            return Err(Error::BadUri);
        }
        let Ok(text) = paths::join(alloc, self.as_slice(), name) else {
            return Err(Error::Memory);
        };
        match Bytes::from_vec(text) {
            Ok(octets) => Ok(Rsync::of_uri(octets)),
            Err(_) => Err(Error::Memory),
        }
    }

    /// The folder: the URI less one slash at its end and its last segment, with the slash before that; none where no
    /// path comes after the module. The octets are shared, and a refusal comes of the count of their owners alone.
    pub fn parent(&self) -> Result<Option<Rsync>, AllocError>
        ensures folder { IfOk result (λ folder. folder ≡ parent_of self.now) }
        ensures none { parent_of self.now ≡ None → IsOk result }
    {
        let Some(folder) = paths::parent(self.as_slice()) else {
            return Ok(None);
        };
        let mut octets = self.as_bytes().clone()?;
        octets.truncate(folder.len());
        Ok(Some(Rsync::of_uri(octets)))
    }

    /// The URI with its scheme and its host in lower case, under which it is looked up. Where it is so already, its
    /// octets are shared.
    pub fn lookup_key(&self, alloc: Global) -> Result<Rsync, AllocError>
        ensures { IfOk result (λ key. key ≡ key_of self.now) }
    {
        if grammar::is_lookup_key(self.as_slice()) {
            return self.clone();
        }
        let key = grammar::lookup_key(alloc, self.as_slice())?;
        match Bytes::from_vec(key) {
            Ok(octets) => Ok(Rsync::of_uri(octets)),
            Err(_) => Err(AllocError),
        }
    }
}

/// What a URI has.
impl Rsync {
    /// The text.
    pub fn as_str(&self) -> &str
        ensures text { result.now ≡ self.now }
        ensures uri { IsRsync self.now }
    {
        self.text.as_str()
    }

    /// The octets of the text.
    pub fn as_slice(&self) -> &[u8]
        ensures text { result.now ≡ self.now }
        ensures uri { IsRsync self.now }
    {
        self.text.as_bytes().as_slice()
    }

    /// The octets of the text, to be shared.
    pub fn as_bytes(&self) -> &Bytes
        ensures text { result.now ≡ self.now }
        ensures uri { IsRsync self.now }
    {
        self.text.as_bytes()
    }

    /// The octets of the text.
    pub fn into_bytes(self) -> Bytes
        ensures text { result ≡ self }
        ensures uri { IsRsync self }
    {
        self.text.into_bytes()
    }

    /// Whether the URIs are the same but for case in scheme and host, and for one slash at the end of each.
    pub fn is_identical_to(&self, other: &Rsync) -> bool
        ensures { IsTrue result ↔ IsIdenticalTo self.now other.now }
    {
        paths::is_identical(self.as_slice(), other.as_slice())
    }

    /// The URI as a general name: `[6] IMPLICIT IA5String` (RFC 5280 4.2.1.6).
    pub fn encode_general_name(&self) -> OctetSliceEncoder<&[u8]>
        ensures tag { result.tag ≡ context 6 }
        ensures text { result.octets.now ≡ self.now }
    {
        OctetString::encode_slice_as(self.as_slice(), Tag::CTX_6)
    }
}

/// A clone is an equal URI; no octet is copied.
impl Clone for Rsync {
    ghost is_clone = { λ uri copy. copy ≡ uri };

    fn clone(&self) -> Result<Rsync, AllocError> {
        let octets = self.as_bytes().clone()?;
        Ok(Rsync::of_uri(octets))
    }
}

/// The text.
impl fmt::Display for Rsync {
    ghost output = { λ uri. Some uri };

    fn fmt<W: fmt::Write>(&self, f: &mut fmt::Formatter<W>) -> fmt::Result {
        fmt::Display::fmt(&self.as_str(), f)
    }
}
