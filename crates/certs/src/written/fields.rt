//! Fields of certificates and revocation lists, written (RFC 5280 4.1, 5.1).

ghost use Rattle.certs.specs.Fields.{serial, time, version};

use certs_extension::Time;
use certs_key::encode::{EncodeError, Primitive, Values};
use certs_key::{Mode, Serial, Tag};
use std::io::Write;

/// A moment: UTCTime from 1950 through 2049, and GeneralizedTime before and after (RFC 5280 4.1.2.5).
#[derive(Drop)]
pub struct TimeValue(pub Time);

impl Values for TimeValue {
    ghost trees = { λ t. (time t.0).trees };

    ghost writes = { λ t. (time t.0).writes };

    fn encoded_len(&self, mode: Mode) -> Result<usize, EncodeError> {
        let value = self.0.encode_varied();
        value.encoded_len(mode)
    }

    fn write_encoded<W: Write>(&self, mode: Mode, target: &mut W) -> Result<(), EncodeError> {
        let value = self.0.encode_varied();
        value.write_encoded(mode, target)
    }

    ghost spelled = { λ t. (time t.0).spelled };

    ghost one_text = { λ t. (time t.0).one_text };
}

/// A serial number, or the number of a revocation list: an INTEGER (RFC 5280 4.1.2.2, 5.2.3).
#[derive(Drop)]
pub struct SerialValue(pub Serial);

impl Values for SerialValue {
    ghost trees = { λ n. (serial n.0).trees };

    ghost writes = { λ n. (serial n.0).writes };

    fn encoded_len(&self, mode: Mode) -> Result<usize, EncodeError> {
        let value = Primitive {
            tag: Tag::INTEGER,
            content: self.0,
        };
        value.encoded_len(mode)
    }

    fn write_encoded<W: Write>(&self, mode: Mode, target: &mut W) -> Result<(), EncodeError> {
        let value = Primitive {
            tag: Tag::INTEGER,
            content: self.0,
        };
        value.write_encoded(mode, target)
    }

    ghost spelled = { λ n. (serial n.0).spelled };

    ghost one_text = { λ n. (serial n.0).one_text };
}

/// The number of a version: an INTEGER (RFC 5280 4.1.2.1, 5.1.2.1).
#[derive(Drop)]
pub struct Version(pub u8);

impl Values for Version {
    ghost trees = { λ n. (version n.0).trees };

    ghost writes = { λ n. (version n.0).writes };

    fn encoded_len(&self, mode: Mode) -> Result<usize, EncodeError> {
        let value = Primitive {
            tag: Tag::INTEGER,
            content: self.0,
        };
        value.encoded_len(mode)
    }

    fn write_encoded<W: Write>(&self, mode: Mode, target: &mut W) -> Result<(), EncodeError> {
        let value = Primitive {
            tag: Tag::INTEGER,
            content: self.0,
        };
        value.write_encoded(mode, target)
    }

    ghost spelled = { λ n. (version n.0).spelled };

    ghost one_text = { λ n. (version n.0).one_text };
}
