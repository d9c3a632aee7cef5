//! A signed structure: a body whose exact octets are kept, since the signature is over them, and which is read of them.

ghost use Rattle.std.specs.Prelude.{◌≡◌, true, OnErr};
ghost use Rattle.bcder_example.specs.bcder_content.Captures.{rest_of};
ghost use Rattle.bcder_example.specs.bcder_content.Exact.{DecodesAs, ReadsAs};
ghost use Rattle.bcder_example.specs.bcder_content.Here.{here};
ghost use Rattle.bcder_example.specs.bcder_content.InMode.{ReadsFields};
ghost use Rattle.bcder_example.specs.bcder_values.KeptForms.{KeptIn};
ghost use Rattle.bcder_example.specs.Signed.{algorithm, algorithm_content, body, body_content};
ghost use Rattle.bcder_example.specs.Signed.{body_fields, kept_body, lends, only};
ghost use Rattle.bcder_example.specs.Signed.{signed, signed_content, signed_fields, signed_lends};

use bcder::decode::{Constructed, Decode, DecodeError, Source};
use bcder::encode::{self, EncodeError, PrimitiveContent, Values};
use bcder::{BitString, Captured, Mode, OctetString, Oid, Tag, Unsigned};
use std::alloc::Global;
use std::convert::Infallible;
use std::io::Write;

/// `Body ::= SEQUENCE { serial INTEGER (0..MAX), note OCTET STRING }`
#[derive(Debug, Drop)]
pub struct Body {
    /// A number, of any size.
    pub serial: Unsigned,
    /// Any octets.
    pub note: OctetString,
}

/// `Signed ::= SEQUENCE { body Body, algorithm SEQUENCE { id OBJECT IDENTIFIER }, signature BIT STRING }`
#[derive(Drop)]
pub struct Signed {
    /// The octets of the body, as they stand: what is signed.
    pub octets: Captured,
    /// What they say.
    pub body: Body,
    /// The algorithm of the signature.
    pub algorithm: Oid,
    /// The signature.
    pub signature: BitString,
}

/// The encoders of the fields, in a SEQUENCE.
type Encoder<'a> = encode::Constructed<
    (
        &'a Captured,
        encode::Constructed<encode::Primitive<&'a Oid>>,
        encode::Primitive<&'a BitString>,
    ),
>;

// The fields of a body.
fn take_body_fields<S: Source>(
    alloc: Global,
    cons: &mut Constructed<S>,
) -> Result<Body, DecodeError<S::Error>>
    ensures { ReadsFields body_fields body_content.reads
        (here S.rest cons.old) result (here S.rest cons.new) }
{
    let serial = Unsigned::take_from(alloc, cons)?;
    let note = OctetString::take_from(alloc, cons)?;
    Ok(Body { serial, note })
}

/// A body.
pub fn take_body<S: Source>(
    alloc: Global,
    cons: &mut Constructed<S>,
) -> Result<Body, DecodeError<S::Error>>
    ensures reads { ReadsAs body_fields (body.reads (here S.rest cons.old).mode)
        (here S.rest cons.old) result (here S.rest cons.new) }
    ensures failed { OnErr result ((here S.rest cons.new).failed ≡ true) }
{
    cons.take_sequence(
        |cons|
            ensures { ReadsFields body_fields body_content.reads
                (here S.rest cons.old) result (here S.rest cons.new) }
        { take_body_fields(alloc, cons) },
    )
}

// The body that octets begin with.
fn body_of(alloc: Global, octets: &[u8], mode: Mode) -> Result<Body, DecodeError<Infallible>>
    ensures { DecodesAs body_fields mode (body.reads mode) octets.now result }
{
    mode.decode(
        octets,
        |cons|
            ensures { ReadsAs body_fields (body.reads (here rest_of cons.old).mode)
                (here rest_of cons.old) result (here rest_of cons.new) }
        { take_body(alloc, cons) },
    )
}

// A body, with its octets.
fn take_kept_body<S: Source>(
    alloc: Global,
    cons: &mut Constructed<S>,
) -> Result<(Captured, Body), DecodeError<S::Error>>
    ensures { ReadsAs kept_body (KeptIn body.reads (here S.rest cons.old).mode)
        (here S.rest cons.old) result (here S.rest cons.new) }
{
    let mode = cons.mode();
    let octets = cons.capture_one(alloc)?;
    let body = match body_of(alloc, octets.as_slice(), mode) {
        Ok(body) => body,
        Err(error) => return Err(error.convert()),
    };
    Ok((octets, body))
}

// The field of an algorithm.
fn take_algorithm_fields<S: Source>(
    alloc: Global,
    cons: &mut Constructed<S>,
) -> Result<Oid, DecodeError<S::Error>>
    ensures { ReadsFields (λ id. only id.0) algorithm_content.reads
        (here S.rest cons.old) result (here S.rest cons.new) }
{
    let id = Oid::take_from(alloc, cons)?;
    Ok(id)
}

// An algorithm.
fn take_algorithm<S: Source>(
    alloc: Global,
    cons: &mut Constructed<S>,
) -> Result<Oid, DecodeError<S::Error>>
    ensures { ReadsAs (λ id. id.0) (algorithm.reads (here S.rest cons.old).mode)
        (here S.rest cons.old) result (here S.rest cons.new) }
{
    cons.take_sequence(
        |cons|
            ensures { ReadsFields (λ id. only id.0) algorithm_content.reads
                (here S.rest cons.old) result (here S.rest cons.new) }
        { take_algorithm_fields(alloc, cons) },
    )
}

// The fields of a signed structure.
fn take_signed_fields<S: Source>(
    alloc: Global,
    cons: &mut Constructed<S>,
) -> Result<Signed, DecodeError<S::Error>>
    ensures { ReadsFields signed_fields signed_content.reads
        (here S.rest cons.old) result (here S.rest cons.new) }
{
    let kept = take_kept_body(alloc, cons)?;
    let algorithm = take_algorithm(alloc, cons)?;
    let signature = BitString::take_from(alloc, cons)?;
    let (octets, body) = kept;
    Ok(Signed {
        octets,
        body,
        algorithm,
        signature,
    })
}

impl Signed {
    /// The signed structure that is next. A body that isn't one is refused, and no value after it is read.
    pub fn take_from<S: Source>(
        alloc: Global,
        cons: &mut Constructed<S>,
    ) -> Result<Signed, DecodeError<S::Error>>
        ensures reads { ReadsAs signed_fields (signed.reads (here S.rest cons.old).mode)
            (here S.rest cons.old) result (here S.rest cons.new) }
        ensures failed { OnErr result ((here S.rest cons.new).failed ≡ true) }
    {
        cons.take_sequence(
            |cons|
                ensures { ReadsFields signed_fields signed_content.reads
                    (here S.rest cons.old) result (here S.rest cons.new) }
            { take_signed_fields(alloc, cons) },
        )
    }

    // The encoders of the fields, in a SEQUENCE.
    fn encode_ref(&self) -> Encoder<'_>
        ensures { lends result.tag (kept_body (result.inner.0.now, self.now.body))
            result.inner.1.tag
            (result.inner.1.inner.tag, result.inner.1.inner.content.now.0)
            (result.inner.2.tag, result.inner.2.content.now)
            ≡ signed_lends self.now }
    {
        encode::Constructed {
            tag: Tag::SEQUENCE,
            inner: (
                &self.octets,
                encode::Constructed {
                    tag: Tag::SEQUENCE,
                    inner: self.algorithm.encode_ref(),
                },
                self.signature.encode_ref(),
            ),
        }
    }
}

/// A SEQUENCE of the fields; the body is written as the octets that were kept.
///
/// `CerUnsupported` where the mode is neither BER nor the one in which the octets were read, or where `signature` has
/// more than 1000 content octets in CER (X.690 9.2); `TooLong` where a content has more than 2^32 - 1 octets.
impl Values for Signed {
    ghost use Rattle.bcder_example.specs.Signed.{signed, signed_fields};

    ghost trees = { λ s. signed.trees (signed_fields s) };

    ghost writes = { λ s. signed.writes (signed_fields s) };

    fn encoded_len(&self, mode: Mode) -> Result<usize, EncodeError> {
        let value = self.encode_ref();
        value.encoded_len(mode)
    }

    fn write_encoded<W: Write>(&self, mode: Mode, target: &mut W) -> Result<(), EncodeError> {
        let value = self.encode_ref();
        value.write_encoded(mode, target)
    }

    ghost spelled = { λ s. signed.spelled (signed_fields s) };

    ghost one_text = { λ s. signed.one_text (signed_fields s) };
}
