//! Notices.

ghost use Rattle.std.specs.Prelude.{◌≡◌, true, OnErr};
ghost use Rattle.bcder_example.specs.bcder_content.Exact.{ReadsAs};
ghost use Rattle.bcder_example.specs.bcder_content.InMode.{ReadsFields};
ghost use Rattle.bcder_example.specs.bcder_content.Here.{here};
ghost use Rattle.bcder_example.specs.Notices.{lends, notice, notice_body, notice_fields, notice_lends};

use bcder::decode::{Constructed, DecodeError, Source};
use bcder::encode::{self, EncodeError, PrimitiveContent, Values};
use bcder::string::OctetSliceEncoder;
use bcder::{BitString, Mode, OctetString, Oid, Tag, Unsigned};
use std::alloc::Global;
use std::io::Write;

/// A notice: `SEQUENCE { id OBJECT IDENTIFIER, serial INTEGER (0..MAX), flags BIT STRING, note OCTET STRING }`.
#[derive(Debug, Drop)]
pub struct Notice {
    /// What the notice is about.
    pub id: Oid,
    /// Its number, of any size.
    pub serial: Unsigned,
    /// Bits, as many as there are.
    pub flags: BitString,
    /// Any octets.
    pub note: OctetString,
}

/// The encoders of a notice's fields, in a SEQUENCE.
type Encoder<'a> = encode::Constructed<
    (
        encode::Primitive<&'a Oid>,
        encode::Primitive<&'a Unsigned>,
        encode::Primitive<&'a BitString>,
        OctetSliceEncoder<&'a [u8]>,
    ),
>;

impl Notice {
    /// The notice that is next; any other value is refused. Where the source shares its octets none is copied.
    pub fn take_from<S: Source>(
        alloc: Global,
        cons: &mut Constructed<S>,
    ) -> Result<Notice, DecodeError<S::Error>>
        ensures reads { ReadsAs notice_fields (notice.reads (here S.rest cons.old).mode)
            (here S.rest cons.old) result (here S.rest cons.new) }
        ensures failed { OnErr result ((here S.rest cons.new).failed ≡ true) }
    {
        cons.take_sequence(
            |cons|
                ensures { ReadsFields notice_fields notice_body.reads
                    (here S.rest cons.old) result (here S.rest cons.new) }
            { Notice::take_fields(alloc, cons) },
        )
    }

    // The fields of a notice, up to the end of their content.
    fn take_fields<S: Source>(
        alloc: Global,
        cons: &mut Constructed<S>,
    ) -> Result<Notice, DecodeError<S::Error>>
        ensures { ReadsFields notice_fields notice_body.reads
            (here S.rest cons.old) result (here S.rest cons.new) }
    {
        let id = Oid::take_from(alloc, cons)?;
        let serial = Unsigned::take_from(alloc, cons)?;
        let flags = BitString::take_from(alloc, cons)?;
        let note = OctetString::take_from(alloc, cons)?;
        Ok(Notice {
            id,
            serial,
            flags,
            note,
        })
    }

    // The encoders of the fields, in a SEQUENCE.
    fn encode_ref(&self) -> Encoder<'_>
        ensures { lends result.tag (result.inner.0.tag, result.inner.0.content.now.0)
            (result.inner.1.tag, result.inner.1.content.now)
            (result.inner.2.tag, result.inner.2.content.now)
            (result.inner.3.tag, result.inner.3.octets.now) ≡ notice_lends self.now }
    {
        encode::Constructed {
            tag: Tag::SEQUENCE,
            inner: (
                self.id.encode_ref(),
                self.serial.encode_ref(),
                self.flags.encode_ref(),
                self.note.encode_ref(),
            ),
        }
    }
}

/// A SEQUENCE of the fields. An identifier is written by its octets, whatever they are.
///
/// `CerUnsupported` where `flags` has more than 1000 content octets in CER (X.690 9.2); `TooLong` where a content has
/// more than 2^32 - 1 octets.
impl Values for Notice {
    ghost use Rattle.bcder_example.specs.Notices.{notice, notice_fields};

    ghost trees = { λ n. notice.trees (notice_fields n) };

    ghost writes = { λ n. notice.writes (notice_fields n) };

    fn encoded_len(&self, mode: Mode) -> Result<usize, EncodeError> {
        let value = self.encode_ref();
        value.encoded_len(mode)
    }

    fn write_encoded<W: Write>(&self, mode: Mode, target: &mut W) -> Result<(), EncodeError> {
        let value = self.encode_ref();
        value.write_encoded(mode, target)
    }

    ghost spelled = { λ n. notice.spelled (notice_fields n) };

    ghost one_text = { λ n. notice.one_text (notice_fields n) };
}
