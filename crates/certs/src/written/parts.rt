//! What values of extensions are put together from.

ghost use Rattle.std.specs.Prelude.{◌≡◌};
ghost use Rattle.certs.specs.bcder_tree.Tags.{context, sequence_tag};
ghost use Rattle.certs.specs.bcder_tree.Strings.{octet_string_tag};
ghost use Rattle.certs.specs.bcder_tree.declared.mode.Mode.TheVariants.{Der};
ghost use Rattle.certs.specs.bcder_octets.Wrapping.{IsAround, WritesAround, around_one, around_spelled};
ghost use Rattle.certs.specs.bcder_values.Wraps.{wrapped_one, wrapped_spelled};
ghost use Rattle.certs.specs.bcder_primitive.Encoded.{IsWrapped, WritesWrapped};
ghost use Rattle.certs.specs.bcder.Kinds.{oid};
ghost use Rattle.certs.specs.Values.{truth, uri_name};

use certs_key::encode::{Constructed, EncodeError, Octets, Primitive, Values};
use certs_key::string::{OctetSliceEncoder, WrappingOctetStringEncoder};
use certs_key::{ConstOid, Mode, Tag};
use std::io::Write;

/// A SEQUENCE of the values (X.690 8.9).
#[derive(Drop)]
pub struct Sequence<V>(pub V);

impl<V: Values> Values for Sequence<V> {
    ghost trees = { λ x m. IsWrapped sequence_tag (V.trees x.0 m) };

    ghost writes = { λ x m. WritesWrapped m sequence_tag (V.writes x.0 m) };

    fn encoded_len(&self, mode: Mode) -> Result<usize, EncodeError> {
        let value = Constructed {
            tag: Tag::SEQUENCE,
            inner: &self.0,
        };
        value.encoded_len(mode)
    }

    fn write_encoded<W: Write>(&self, mode: Mode, target: &mut W) -> Result<(), EncodeError> {
        let value = Constructed {
            tag: Tag::SEQUENCE,
            inner: &self.0,
        };
        value.write_encoded(mode, target)
    }

    ghost spelled = { λ x m. wrapped_spelled m (V.spelled x.0 m) };

    ghost one_text = { λ x m. wrapped_one m (V.one_text x.0 m) };
}

/// The values in a constructed value with the tag [0].
#[derive(Drop)]
pub struct Context0<V>(pub V);

impl<V: Values> Values for Context0<V> {
    ghost trees = { λ x m. IsWrapped (context 0) (V.trees x.0 m) };

    ghost writes = { λ x m. WritesWrapped m (context 0) (V.writes x.0 m) };

    fn encoded_len(&self, mode: Mode) -> Result<usize, EncodeError> {
        let value = Constructed {
            tag: Tag::CTX_0,
            inner: &self.0,
        };
        value.encoded_len(mode)
    }

    fn write_encoded<W: Write>(&self, mode: Mode, target: &mut W) -> Result<(), EncodeError> {
        let value = Constructed {
            tag: Tag::CTX_0,
            inner: &self.0,
        };
        value.write_encoded(mode, target)
    }

    ghost spelled = { λ x m. wrapped_spelled m (V.spelled x.0 m) };

    ghost one_text = { λ x m. wrapped_one m (V.one_text x.0 m) };
}

/// The values in a constructed value with the tag [3].
#[derive(Drop)]
pub struct Context3<V>(pub V);

impl<V: Values> Values for Context3<V> {
    ghost trees = { λ x m. IsWrapped (context 3) (V.trees x.0 m) };

    ghost writes = { λ x m. WritesWrapped m (context 3) (V.writes x.0 m) };

    fn encoded_len(&self, mode: Mode) -> Result<usize, EncodeError> {
        let value = Constructed {
            tag: Tag::CTX_3,
            inner: &self.0,
        };
        value.encoded_len(mode)
    }

    fn write_encoded<W: Write>(&self, mode: Mode, target: &mut W) -> Result<(), EncodeError> {
        let value = Constructed {
            tag: Tag::CTX_3,
            inner: &self.0,
        };
        value.write_encoded(mode, target)
    }

    ghost spelled = { λ x m. wrapped_spelled m (V.spelled x.0 m) };

    ghost one_text = { λ x m. wrapped_one m (V.one_text x.0 m) };
}

/// An OCTET STRING whose octets are the DER of the values, whatever the mode around it. In CER it is
/// refused as `CerUnsupported`.
#[derive(Drop)]
pub struct DerString<V>(pub V);

impl<V: Values> Values for DerString<V> {
    ghost trees = { λ x m. IsAround m octet_string_tag (V.writes x.0 Der) };

    ghost writes = { λ x m. WritesAround m octet_string_tag (V.writes x.0 Der) };

    fn encoded_len(&self, mode: Mode) -> Result<usize, EncodeError> {
        let value = WrappingOctetStringEncoder {
            mode: Mode::Der,
            values: &self.0,
            tag: Tag::OCTET_STRING,
        };
        value.encoded_len(mode)
    }

    fn write_encoded<W: Write>(&self, mode: Mode, target: &mut W) -> Result<(), EncodeError> {
        let value = WrappingOctetStringEncoder {
            mode: Mode::Der,
            values: &self.0,
            tag: Tag::OCTET_STRING,
        };
        value.write_encoded(mode, target)
    }

    ghost spelled = { λ x m text w. around_spelled m text w };

    ghost one_text = { λ x m a b. around_one m (V.one_text x.0 Der) a b };
}

/// A BOOLEAN that is false where none is given: TRUE, or nothing (X.690 11.5).
#[derive(Drop)]
pub struct Truth(pub bool);

impl Truth {
    // Whether it is true.
    fn tells(&self) -> bool
        ensures { result ≡ self.now.0 }
    {
        self.0
    }
}

impl Values for Truth {
    ghost trees = { λ x. (truth x.0).trees };

    ghost writes = { λ x. (truth x.0).writes };

    fn encoded_len(&self, mode: Mode) -> Result<usize, EncodeError> {
        if self.tells() {
            let value = Primitive {
                tag: Tag::BOOLEAN,
                content: true,
            };
            return value.encoded_len(mode);
        }
        Ok(0)
    }

    fn write_encoded<W: Write>(&self, mode: Mode, target: &mut W) -> Result<(), EncodeError> {
        if self.tells() {
            let value = Primitive {
                tag: Tag::BOOLEAN,
                content: true,
            };
            return value.write_encoded(mode, target);
        }
        Ok(())
    }

    ghost spelled = { λ x. (truth x.0).spelled };

    ghost one_text = { λ x. (truth x.0).one_text };
}

/// An OBJECT IDENTIFIER.
#[derive(Drop)]
pub struct Identifier(pub ConstOid);

impl Values for Identifier {
    ghost trees = { λ x. oid.trees x.0.0.now };

    ghost writes = { λ x. oid.writes x.0.0.now };

    fn encoded_len(&self, mode: Mode) -> Result<usize, EncodeError> {
        let value = Primitive {
            tag: Tag::OID,
            content: Octets(self.0.0),
        };
        value.encoded_len(mode)
    }

    fn write_encoded<W: Write>(&self, mode: Mode, target: &mut W) -> Result<(), EncodeError> {
        let value = Primitive {
            tag: Tag::OID,
            content: Octets(self.0.0),
        };
        value.write_encoded(mode, target)
    }

    ghost spelled = { λ x. oid.spelled x.0.0.now };

    ghost one_text = { λ x. oid.one_text x.0.0.now };
}

/// A general name that is a URI: `[6] IMPLICIT IA5String` of these octets (RFC 5280 4.2.1.6).
#[derive(Clone, Copy)]
pub struct UriName<'a>(pub &'a [u8]);

impl Values for UriName<'_> {
    ghost trees = { λ x. (uri_name x.0.now).trees };

    ghost writes = { λ x. (uri_name x.0.now).writes };

    fn encoded_len(&self, mode: Mode) -> Result<usize, EncodeError> {
        let value = OctetSliceEncoder {
            tag: Tag::CTX_6,
            octets: self.0,
        };
        value.encoded_len(mode)
    }

    fn write_encoded<W: Write>(&self, mode: Mode, target: &mut W) -> Result<(), EncodeError> {
        let value = OctetSliceEncoder {
            tag: Tag::CTX_6,
            octets: self.0,
        };
        value.write_encoded(mode, target)
    }

    ghost spelled = { λ x. (uri_name x.0.now).spelled };

    ghost one_text = { λ x. (uri_name x.0.now).one_text };
}
