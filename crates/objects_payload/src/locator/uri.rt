//! URIs of locators.

ghost use Rattle.std.specs.Prelude.{◌≡◌, ◌≢◌, ◌↔◌, IsTrue, IfErr, Some, string_bytes};
ghost use Rattle.objects_payload.specs.certs_basics.Uris.{IsRsync, IsHttps, IsUri};
ghost use Rattle.objects_payload.specs.certs_basics.declared.uri.error.Error.TheVariants.{Memory};
ghost use Rattle.objects_payload.specs.Locators.{is_https as has_https};
ghost use Rattle.objects_payload.specs.Uris.{MakesUri, text_of};
ghost use Rattle.objects_payload.specs.declared.locator.uri.TalUri.TheVariants as kinds;

use bytes::Bytes;
use certs_basics::uri::{Error, Https, Rsync, grammar};
use std::alloc::{AllocError, Global};
use std::fmt;

/// A URI under which a trust anchor's certificate is published (RFC 8630 2.2).
#[derive(Debug, Drop, PartialEq, Eq, Hash)]
pub enum TalUri {
    /// An rsync URI.
    Rsync(Rsync),
    /// An https URI.
    Https(Https),
}

/// URIs that are made.
impl TalUri {
    /// The URI of this text, if it is one. No octet is copied, and no memory is taken.
    pub fn from_bytes(octets: Bytes) -> Result<TalUri, Error>
        ensures uri { MakesUri octets result }
        ensures no_memory { IfErr result (λ e. e ≢ Memory) }
    {
        if grammar::is_rsync(octets.as_slice()) {
            return Ok(TalUri::Rsync(Rsync::from_bytes(octets)?));
        }
        Ok(TalUri::Https(Https::from_bytes(octets)?))
    }

    /// The URI of this text, if it is one. No octet is copied.
    pub fn from_string(text: String) -> Result<TalUri, Error>
        ensures { MakesUri (string_bytes text) result }
    {
        if !grammar::is_uri(text.as_bytes()) {
            return Err(Error::BadUri);
        }
        match Bytes::from_vec(text.into_bytes()) {
            Ok(octets) => TalUri::from_bytes(octets),
            Err(_) => Err(Error::Memory),
        }
    }

    /// The URI of a copy of this text, if it is one.
    pub fn from_slice(alloc: Global, octets: &[u8]) -> Result<TalUri, Error>
        ensures { MakesUri octets.now result }
    {
        if grammar::is_rsync(octets) {
            return Ok(TalUri::Rsync(Rsync::from_slice(alloc, octets)?));
        }
        Ok(TalUri::Https(Https::from_slice(alloc, octets)?))
    }
}

/// What a URI has.
impl TalUri {
    /// The text.
    pub fn as_str(&self) -> &str
        ensures text { result.now ≡ text_of self.now }
        ensures uri { IsUri result.now }
    {
        match self {
            TalUri::Rsync(uri) => uri.as_str(),
            TalUri::Https(uri) => uri.as_str(),
        }
    }

    /// Whether it is an rsync URI.
    pub fn is_rsync(&self) -> bool
        ensures { IsTrue result ↔ IsRsync (text_of self.now) }
    {
        grammar::is_rsync(self.as_str().as_bytes())
    }

    /// Whether it is an https URI.
    pub fn is_https(&self) -> bool
        ensures uri { IsTrue result ↔ IsHttps (text_of self.now) }
        ensures scheme { result ≡ has_https (text_of self.now) }
    {
        grammar::is_https(self.as_str().as_bytes())
    }
}

impl From<Rsync> for TalUri {
    ghost from_gives = { λ uri made. made ≡ kinds.Rsync uri };

    fn from(uri: Rsync) -> TalUri {
        TalUri::Rsync(uri)
    }
}

impl From<Https> for TalUri {
    ghost from_gives = { λ uri made. made ≡ kinds.Https uri };

    fn from(uri: Https) -> TalUri {
        TalUri::Https(uri)
    }
}

/// A clone is an equal URI; no octet is copied.
impl Clone for TalUri {
    ghost is_clone = { λ uri copy. copy ≡ uri };

    fn clone(&self) -> Result<TalUri, AllocError> {
        match self {
            TalUri::Rsync(uri) => Ok(TalUri::Rsync(uri.clone()?)),
            TalUri::Https(uri) => Ok(TalUri::Https(uri.clone()?)),
        }
    }
}

/// The text.
impl fmt::Display for TalUri {
    ghost output = { λ uri. Some (text_of uri) };

    fn fmt<W: fmt::Write>(&self, f: &mut fmt::Formatter<W>) -> fmt::Result {
        fmt::Display::fmt(self.as_str(), f)
    }
}
