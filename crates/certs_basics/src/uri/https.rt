//! `Https`.

ghost use Rattle.std.specs.Prelude.{◌≡◌, ◌≢◌, IfOk, IfErr, Some};
ghost use Rattle.certs_basics.specs.bcder_tree.Tags.{context};
ghost use Rattle.certs_basics.specs.Made.{MakesIf};
ghost use Rattle.certs_basics.specs.Uris.{IsHttps, lookup_key as key_of};
ghost use Rattle.certs_basics.specs.declared.uri.error.Error.TheVariants.{Memory};

use crate::uri::error::Error;
use crate::uri::grammar;
use bcder::string::OctetSliceEncoder;
use bcder::{OctetString, Tag};
use bytes::{ByteStr, Bytes};
use std::alloc::{AllocError, Global};
use std::fmt;
use std::marker::Model;

/// An https URI (RFC 9110 section 4.2.2): `https://`, in any case, a host, and then nothing or a slash and a path, all
/// of it in octets 21 to 7E.
///
/// Contracts see the text. Equality, order and hash are those of the text, and mind case everywhere.
#[derive(Debug, Drop, PartialEq, Eq, PartialOrd, Ord, Hash)]
pub struct Https {
    text: ByteStr,
}

impl Model for Https {
    ghost use Rattle.std.specs.Prelude.{List, ℕ};
    ghost use Rattle.certs_basics.specs.Uris.{IsHttps};

    ghost Value = { List ℕ };

    ghost view = { λ uri. uri.text };

    ghost invariant = { λ uri. IsHttps uri.text };

    ghost inverse = { λ octets. record { text = octets } };
}

/// URIs that are made.
impl Https {
    // The URI of a text that is one.
    fn of_uri(octets: Bytes) -> Https
        requires { IsHttps octets }
        ensures { result ≡ octets }
    {
        Https {
            text: ByteStr::from_known_utf8(octets),
        }
    }

    /// The URI of this text, if it is an https URI. No octet is copied, and no memory is taken.
    pub fn from_bytes(octets: Bytes) -> Result<Https, Error>
        ensures uri { MakesIf (IsHttps octets) octets result }
        ensures no_memory { IfErr result (λ e. e ≢ Memory) }
    {
        if !grammar::is_https(octets.as_slice()) {
            return Err(Error::BadUri);
        }
        Ok(Https::of_uri(octets))
    }

    /// The URI of a copy of this text, if it is an https URI.
    pub fn from_slice(alloc: Global, octets: &[u8]) -> Result<Https, Error>
        ensures { MakesIf (IsHttps octets.now) octets.now result }
    {
        if !grammar::is_https(octets) {
            return Err(Error::BadUri);
        }
        match Bytes::copy_from_slice(alloc, octets) {
            Ok(octets) => Ok(Https::of_uri(octets)),
            Err(_) => Err(Error::Memory),
        }
    }

    /// The URI with its scheme and its host in lower case, under which it is looked up. Where it is so already, its
    /// octets are shared.
    pub fn lookup_key(&self, alloc: Global) -> Result<Https, AllocError>
        ensures { IfOk result (λ key. key ≡ key_of self.now) }
    {
        if grammar::is_lookup_key(self.as_slice()) {
            return self.clone();
        }
        let key = grammar::lookup_key(alloc, self.as_slice())?;
        match Bytes::from_vec(key) {
            Ok(octets) => Ok(Https::of_uri(octets)),
            Err(_) => Err(AllocError),
        }
    }
}

/// What a URI has.
impl Https {
    /// The text.
    pub fn as_str(&self) -> &str
        ensures text { result.now ≡ self.now }
        ensures uri { IsHttps self.now }
    {
        self.text.as_str()
    }

    /// The octets of the text.
    pub fn as_slice(&self) -> &[u8]
        ensures text { result.now ≡ self.now }
        ensures uri { IsHttps self.now }
    {
        self.text.as_bytes().as_slice()
    }

    /// The octets of the text, to be shared.
    pub fn as_bytes(&self) -> &Bytes
        ensures text { result.now ≡ self.now }
        ensures uri { IsHttps self.now }
    {
        self.text.as_bytes()
    }

    /// The octets of the text.
    pub fn into_bytes(self) -> Bytes
        ensures text { result ≡ self }
        ensures uri { IsHttps self }
    {
        self.text.into_bytes()
    }

    /// The URI as a general name: `[6] IMPLICIT IA5String` (RFC 5280 4.2.1.6).
    pub fn encode_general_name(&self) -> OctetSliceEncoder<&[u8]>
        ensures tag { result.tag ≡ context 6 }
        ensures text { result.octets.now ≡ self.now }
    {
        OctetString::encode_slice_as(self.as_slice(), Tag::CTX_6)
    }
}

/// A clone is an equal URI; no octet is copied.
impl Clone for Https {
    ghost is_clone = { λ uri copy. copy ≡ uri };

    fn clone(&self) -> Result<Https, AllocError> {
        let octets = self.as_bytes().clone()?;
        Ok(Https::of_uri(octets))
    }
}

/// The text.
impl fmt::Display for Https {
    ghost output = { λ uri. Some uri };

    fn fmt<W: fmt::Write>(&self, f: &mut fmt::Formatter<W>) -> fmt::Result {
        fmt::Display::fmt(&self.as_str(), f)
    }
}
