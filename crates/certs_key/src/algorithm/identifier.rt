//! Algorithms as they are written (RFC 5280 4.1.1.2).

ghost use Rattle.std.specs.Prelude.{◌≡◌};
ghost use Rattle.certs_key.specs.bcder_tree.Tags.{null_tag, oid_tag, sequence_tag};
ghost use Rattle.certs_key.specs.Algorithms.{lends_bare, lends_null};

use certs_name::encode::{self, EncodeError, PrimitiveContent, Values};
use certs_name::{ConstOid, Mode, Tag};
use std::io::Write;
use std::marker::Model;

/// What is written of an algorithm: a SEQUENCE of its identifier and, where it has one, NULL.
#[derive(Debug, Drop)]
pub struct AlgorithmIdentifier {
    kind: ConstOid,
    has_null: bool,
}

impl Model for AlgorithmIdentifier {
    ghost use Rattle.certs_key.specs.Algorithms.{AlgorithmValue};

    ghost Value = { AlgorithmValue };

    ghost view = { λ a. record { kind = a.kind.0.now; has_null = a.has_null } };
}

// The encoders of an identifier with NULL after it, and of one without.
type WithNull = encode::Constructed<(encode::Primitive<ConstOid>, encode::Primitive<()>)>;

type Bare = encode::Constructed<(encode::Primitive<ConstOid>, encode::Nothing)>;

impl AlgorithmIdentifier {
    // The algorithm with that identifier, with NULL or without.
    pub(crate) fn new(kind: ConstOid, has_null: bool) -> Self
        ensures { result ≡ record { kind = kind.entry.0.now; has_null = has_null } }
    {
        AlgorithmIdentifier { kind, has_null }
    }

    fn with_null(&self) -> WithNull
        ensures { lends_null result.tag result.inner.0.tag result.inner.1.tag
            result.inner.0.content.0.now
            ≡ lends_null sequence_tag oid_tag null_tag self.now.kind }
    {
        encode::Constructed {
            tag: Tag::SEQUENCE,
            inner: (self.kind.encode(), ().encode()),
        }
    }

    fn bare(&self) -> Bare
        ensures { lends_bare result.tag result.inner.0.tag result.inner.0.content.0.now
            ≡ lends_bare sequence_tag oid_tag self.now.kind }
    {
        encode::Constructed {
            tag: Tag::SEQUENCE,
            inner: (self.kind.encode(), encode::Nothing),
        }
    }

    // Whether NULL is there.
    fn has_null(&self) -> bool
        ensures { result ≡ self.now.has_null }
    {
        self.has_null
    }
}

/// A SEQUENCE of the identifier and, where it has one, NULL.
///
/// `TooLong` where the identifier has more than 2^32 - 1 octets.
impl Values for AlgorithmIdentifier {
    ghost use Rattle.certs_key.specs.Algorithms.{algorithm_of};

    ghost trees = { λ a. (algorithm_of a.kind).trees a.has_null };

    ghost writes = { λ a. (algorithm_of a.kind).writes a.has_null };

    fn encoded_len(&self, mode: Mode) -> Result<usize, EncodeError> {
        if self.has_null() {
            let value = self.with_null();
            return value.encoded_len(mode);
        }
        let value = self.bare();
        value.encoded_len(mode)
    }

    fn write_encoded<W: Write>(&self, mode: Mode, target: &mut W) -> Result<(), EncodeError> {
        if self.has_null() {
            let value = self.with_null();
            return value.write_encoded(mode, target);
        }
        let value = self.bare();
        value.write_encoded(mode, target)
    }

    ghost spelled = { λ a. (algorithm_of a.kind).spelled a.has_null };

    ghost one_text = { λ a. (algorithm_of a.kind).one_text a.has_null };
}
