//! The entries of a bundle's lists.

ghost use Rattle.std.specs.Prelude.{◌≡◌, OnErr, true};
ghost use Rattle.rpki_bundle.specs.bcder_content.Exact.{ReadsOptAs};
ghost use Rattle.rpki_bundle.specs.bcder_content.Here.{here};
ghost use Rattle.rpki_bundle.specs.bcder_content.InMode.{ReadsFields};
ghost use Rattle.rpki_bundle.specs.bcder_tree.Tags.{sequence_tag};
ghost use Rattle.rpki_bundle.specs.Bundle.{AreLocatorFields, AreObjectFields, AreVerdictFields, IsVerdict};
ghost use Rattle.rpki_bundle.specs.PartFields.{locator_fields, object_fields};
ghost use Rattle.rpki_bundle.specs.Words.{verdict_of, words_fields};

use crate::entries::{Entry, stands_before};
use crate::reader::{is_name, take_digest, take_name, take_octets, take_uri};
use crate::uri::is_lookup_key;
use crate::words::VerdictWords;
use crate::writer::{pair_len, triple_len, write_pair, write_triple};
use crate::{Locator, Object, Verdict};
use certs_key::decode::{Constructed, DecodeError, Source};
use certs_key::encode::{EncodeError, Values};
use certs_key::{Mode, Tag};
use std::alloc::Global;
use std::io::Write;

/// A SEQUENCE of its strings.
impl Values for Locator {
    ghost use Rattle.rpki_bundle.specs.bcder_tree.Tags.{printable_string_tag};
    ghost use Rattle.rpki_bundle.specs.Written.{AreLocator, WritesLocator, pair_spelled, pair_one};

    ghost trees = { AreLocator };

    ghost writes = { WritesLocator };

    fn encoded_len(&self, mode: Mode) -> Result<usize, EncodeError> {
        pair_len(mode, Tag::PRINTABLE_STRING, &self.name, &self.text)
    }

    fn write_encoded<W: Write>(&self, mode: Mode, target: &mut W) -> Result<(), EncodeError> {
        write_pair(mode, Tag::PRINTABLE_STRING, &self.name, &self.text, target)
    }

    ghost spelled = { λ l m. pair_spelled m printable_string_tag l.name l.text };

    ghost one_text = { λ l m. pair_one m printable_string_tag l.name l.text };
}

// The fields of a locator, up to the end of their content.
fn take_locator<S: Source>(
    alloc: Global,
    cons: &mut Constructed<S>,
) -> Result<Locator, DecodeError<S::Error>>
    ensures { ReadsFields locator_fields AreLocatorFields (here S.rest cons.old) result
        (here S.rest cons.new) }
{
    let name = take_name(alloc, cons)?;
    let text = take_octets(alloc, cons)?;
    Ok(Locator { name, text })
}

impl Entry for Locator {
    ghost use Rattle.rpki_bundle.specs.Bundle.{IsLocator};
    ghost use Rattle.rpki_bundle.specs.RowLaws.{one_locator, locator_tagged};
    ghost use Rattle.rpki_bundle.specs.Lawful.{IsLawfulLocator};

    ghost form = { IsLocator };

    ghost sort_key = { λ l. l.name };

    #[inline(always)]
    fn take_opt<S: Source>(
        alloc: Global,
        cons: &mut Constructed<S>,
    ) -> Result<Option<Self>, DecodeError<S::Error>> {
        cons.take_opt_sequence(
            |cons|
                ensures { ReadsFields locator_fields AreLocatorFields
                    (here S.rest cons.old) result (here S.rest cons.new) }
            { take_locator(alloc, cons) },
        )
    }

    fn is_before(&self, other: &Self) -> bool {
        stands_before(self.name.as_slice(), other.name.as_slice())
    }

    ghost lawful = { IsLawfulLocator };

    fn is_lawful(&self) -> bool {
        is_name(self.name.as_slice())
    }

    ghost is_sequence = { locator_tagged };

    ghost one_value = { one_locator };
}

/// A SEQUENCE of its strings.
impl Values for Object {
    ghost use Rattle.rpki_bundle.specs.bcder_tree.Tags.{ia5_string_tag};
    ghost use Rattle.rpki_bundle.specs.Written.{AreObject, WritesObject, pair_spelled, pair_one};

    ghost trees = { AreObject };

    ghost writes = { WritesObject };

    fn encoded_len(&self, mode: Mode) -> Result<usize, EncodeError> {
        pair_len(mode, Tag::IA5_STRING, &self.uri, &self.octets)
    }

    fn write_encoded<W: Write>(&self, mode: Mode, target: &mut W) -> Result<(), EncodeError> {
        write_pair(mode, Tag::IA5_STRING, &self.uri, &self.octets, target)
    }

    ghost spelled = { λ o m. pair_spelled m ia5_string_tag o.uri o.octets };

    ghost one_text = { λ o m. pair_one m ia5_string_tag o.uri o.octets };
}

// The fields of an object, up to the end of their content.
fn take_object<S: Source>(
    alloc: Global,
    cons: &mut Constructed<S>,
) -> Result<Object, DecodeError<S::Error>>
    ensures { ReadsFields object_fields AreObjectFields (here S.rest cons.old) result
        (here S.rest cons.new) }
{
    let uri = take_uri(alloc, cons)?;
    let octets = take_octets(alloc, cons)?;
    Ok(Object { uri, octets })
}

impl Entry for Object {
    ghost use Rattle.rpki_bundle.specs.Bundle.{IsObject};
    ghost use Rattle.rpki_bundle.specs.RowLaws.{one_object, object_tagged};
    ghost use Rattle.rpki_bundle.specs.Lawful.{IsLawfulObject};

    ghost form = { IsObject };

    ghost sort_key = { λ o. o.uri };

    #[inline(always)]
    fn take_opt<S: Source>(
        alloc: Global,
        cons: &mut Constructed<S>,
    ) -> Result<Option<Self>, DecodeError<S::Error>> {
        cons.take_opt_sequence(
            |cons|
                ensures { ReadsFields object_fields AreObjectFields
                    (here S.rest cons.old) result (here S.rest cons.new) }
            { take_object(alloc, cons) },
        )
    }

    fn is_before(&self, other: &Self) -> bool {
        stands_before(self.uri.as_slice(), other.uri.as_slice())
    }

    ghost lawful = { IsLawfulObject };

    fn is_lawful(&self) -> bool {
        is_lookup_key(self.uri.as_slice())
    }

    ghost is_sequence = { object_tagged };

    ghost one_value = { one_object };
}

// The fields of a verdict, up to the end of their content.
fn take_digests<S: Source>(cons: &mut Constructed<S>) -> Result<VerdictWords, DecodeError<S::Error>>
    ensures { ReadsFields words_fields (λ m. AreVerdictFields) (here S.rest cons.old) result
        (here S.rest cons.new) }
{
    let key = take_digest(cons)?;
    let message = take_digest(cons)?;
    let signature = take_digest(cons)?;
    Ok(VerdictWords {
        key,
        message,
        signature,
    })
}

// The next verdict, in words, if a SEQUENCE is next.
#[inline(always)]
fn take_words<S: Source>(
    cons: &mut Constructed<S>,
) -> Result<Option<VerdictWords>, DecodeError<S::Error>>
    ensures reads { ReadsOptAs verdict_of sequence_tag IsVerdict (here S.rest cons.old) result
        (here S.rest cons.new) }
    ensures failed { OnErr result ((here S.rest cons.new).failed ≡ true) }
{
    cons.take_opt_sequence(
        |cons|
            ensures { ReadsFields words_fields (λ m. AreVerdictFields) (here S.rest cons.old) result
                (here S.rest cons.new) }
        { take_digests(cons) },
    )
}

/// A SEQUENCE of its strings.
impl Values for Verdict {
    ghost use Rattle.rpki_bundle.specs.Written.{AreVerdict, WritesVerdict, triple_spelled, triple_one};

    ghost trees = { AreVerdict };

    ghost writes = { WritesVerdict };

    fn encoded_len(&self, mode: Mode) -> Result<usize, EncodeError> {
        triple_len(mode, &self.key, &self.message, &self.signature)
    }

    fn write_encoded<W: Write>(&self, mode: Mode, target: &mut W) -> Result<(), EncodeError> {
        write_triple(mode, &self.key, &self.message, &self.signature, target)
    }

    ghost spelled = { λ x m. triple_spelled m };

    ghost one_text = { λ x m. triple_one m };
}

impl Entry for Verdict {
    ghost use Rattle.rpki_bundle.specs.Bundle.{IsVerdict, verdict_row};
    ghost use Rattle.rpki_bundle.specs.RowLaws.{one_verdict, verdict_tagged};
    ghost use Rattle.rpki_bundle.specs.Lawful.{IsLawfulVerdict};

    ghost form = { λ m. IsVerdict };

    ghost sort_key = { verdict_row };

    #[inline(always)]
    fn take_opt<S: Source>(
        alloc: Global,
        cons: &mut Constructed<S>,
    ) -> Result<Option<Self>, DecodeError<S::Error>> {
        match take_words(cons) {
            Ok(Some(words)) => Ok(Some(words.verdict())),
            Ok(None) => Ok(None),
            Err(error) => Err(error),
        }
    }

    fn is_before(&self, other: &Self) -> bool {
        self.key
            .cmp(&other.key)
            .then(self.message.cmp(&other.message))
            .then(self.signature.cmp(&other.signature))
            .is_lt()
    }

    ghost lawful = { IsLawfulVerdict };

    fn is_lawful(&self) -> bool {
        true
    }

    ghost is_sequence = { λ m. verdict_tagged };

    ghost one_value = { λ m. one_verdict };
}
