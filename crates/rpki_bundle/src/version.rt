//! The versions of bundles.

ghost use Rattle.std.specs.Prelude.{◌≡◌};
ghost use Rattle.rpki_bundle.specs.Bundle.{is_relaxed, number_of};

use certs_key::encode::{EncodeError, Primitive, Values};
use certs_key::{Mode, Tag};
use std::io::Write;

/// The version of a bundle.
#[derive(Clone, Copy, Debug, PartialEq, Eq, Hash)]
pub enum Version {
    /// Version 0: signed objects are read in DER.
    Zero,
    /// Version 1, which says how signed objects are read.
    One {
        /// Whether they are read in BER.
        relaxed: bool,
    },
}

impl Version {
    /// Whether signed objects (manifests, ROAs and ASPAs) are read in BER; those of a bundle of version 0 never are.
    pub fn is_relaxed(self) -> bool
        ensures { result ≡ is_relaxed self }
    {
        match self {
            Version::Zero => false,
            Version::One { relaxed } => relaxed,
        }
    }

    /// The number in front of a bundle's fields.
    pub fn number(self) -> u8
        ensures { result ≡ number_of self }
    {
        match self {
            Version::Zero => 0,
            Version::One { relaxed: _ } => 1,
        }
    }
}

/// What is written of a version behind the depth.
#[derive(Clone, Copy)]
pub(crate) struct Flag {
    pub version: Version,
}

/// In version 1 a BOOLEAN, in version 0 nothing.
impl Values for Flag {
    ghost use Rattle.rpki_bundle.specs.Written.{IsFlag, WritesFlag, flag_spelled, flag_one};

    ghost trees = { λ f m. IsFlag f.version };

    ghost writes = { λ f m. WritesFlag m f.version };

    fn encoded_len(&self, mode: Mode) -> Result<usize, EncodeError> {
        match self.version {
            Version::Zero => Ok(0),
            Version::One { relaxed } => {
                let flag = Primitive {
                    tag: Tag::BOOLEAN,
                    content: relaxed,
                };
                flag.encoded_len(mode)
            }
        }
    }

    fn write_encoded<W: Write>(&self, mode: Mode, target: &mut W) -> Result<(), EncodeError> {
        match self.version {
            Version::Zero => Ok(()),
            Version::One { relaxed } => {
                let flag = Primitive {
                    tag: Tag::BOOLEAN,
                    content: relaxed,
                };
                flag.write_encoded(mode, target)
            }
        }
    }

    ghost spelled = { λ f m. flag_spelled m f.version };

    ghost one_text = { λ f m. flag_one m f.version };
}
