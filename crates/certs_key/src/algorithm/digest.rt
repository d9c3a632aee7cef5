//! The digest algorithm, SHA-256 (RFC 7935 2).

ghost use Rattle.std.specs.Prelude.{◌≡◌, ◌≢◌, true, false, IfErr, OnErr};
ghost use Rattle.certs_key.specs.bcder_source.declared.error.DecodeError.TheVariants.{Memory};
ghost use Rattle.certs_key.specs.bcder_tree.Tags.{sequence_tag, set_tag};
ghost use Rattle.certs_key.specs.bcder_content.Exact.{ReadsAs, ReadsOptAs};
ghost use Rattle.certs_key.specs.bcder_content.Grammar.{End, Then};
ghost use Rattle.certs_key.specs.bcder_content.Here.{here};
ghost use Rattle.certs_key.specs.bcder_content.InMode.{ReadsFields};
ghost use Rattle.certs_key.specs.Algorithms.{AreDigestAlgorithms, AreFields, IsDigestAlgorithm, sha256, fields_of};

use crate::algorithm::identifier::AlgorithmIdentifier;
use certs_name::decode::{Constructed, DecodeError, Source};
use certs_name::oid::SHA256;
use certs_name::{Tag, encode};

/// The algorithm of digests in RPKI, which is SHA-256.
#[derive(Clone, Copy, Debug, Default, PartialEq, Eq, Hash)]
pub struct DigestAlgorithm(());

// The fields of the algorithm: whether NULL is there.
fn take_fields<S: Source>(cons: &mut Constructed<S>) -> Result<bool, DecodeError<S::Error>>
    ensures reads { ReadsFields fields_of (λ m. AreFields sha256)
        (here S.rest cons.old) result (here S.rest cons.new) }
    ensures no_memory { IfErr result (λ e. e ≢ Memory) }
{
    let _id = SHA256.skip_if(cons)?;
    let null = cons.take_opt_null()?;
    Ok(null.is_some())
}

// The one algorithm of a set.
fn take_set_fields<S: Source>(
    cons: &mut Constructed<S>,
) -> Result<DigestAlgorithm, DecodeError<S::Error>>
    ensures reads { ReadsFields (λ a. (tt, tt)) (λ m. Then IsDigestAlgorithm End)
        (here S.rest cons.old) result (here S.rest cons.new) }
    ensures no_memory { IfErr result (λ e. e ≢ Memory) }
{
    let algorithm = DigestAlgorithm::take_from(cons)?;
    Ok(algorithm)
}

impl DigestAlgorithm {
    /// The algorithm that is named next: SHA-256, with NULL or without (RFC 5754 2).
    pub fn take_from<S: Source>(cons: &mut Constructed<S>) -> Result<Self, DecodeError<S::Error>>
        ensures reads { ReadsAs (λ a. tt) IsDigestAlgorithm
            (here S.rest cons.old) result (here S.rest cons.new) }
        ensures failed { OnErr result ((here S.rest cons.new).failed ≡ true) }
        ensures no_memory { IfErr result (λ e. e ≢ Memory) }
    {
        let _has_null = cons.take_sequence(
            |cons|
                ensures reads { ReadsFields fields_of (λ m. AreFields sha256)
                    (here S.rest cons.old) result (here S.rest cons.new) }
                ensures no_memory { IfErr result (λ e. e ≢ Memory) }
            { take_fields(cons) },
        )?;
        Ok(DigestAlgorithm(()))
    }

    /// The algorithm that is named next, if a SEQUENCE is next; one that names another algorithm is refused.
    pub fn take_opt_from<S: Source>(
        cons: &mut Constructed<S>,
    ) -> Result<Option<Self>, DecodeError<S::Error>>
        ensures reads { ReadsOptAs (λ a. tt) sequence_tag IsDigestAlgorithm
            (here S.rest cons.old) result (here S.rest cons.new) }
        ensures failed { OnErr result ((here S.rest cons.new).failed ≡ true) }
        ensures no_memory { IfErr result (λ e. e ≢ Memory) }
    {
        let has_null = cons.take_opt_sequence(
            |cons|
                ensures reads { ReadsFields fields_of (λ m. AreFields sha256)
                    (here S.rest cons.old) result (here S.rest cons.new) }
                ensures no_memory { IfErr result (λ e. e ≢ Memory) }
            { take_fields(cons) },
        )?;
        match has_null {
            Some(_) => Ok(Some(DigestAlgorithm(()))),
            None => Ok(None),
        }
    }

    /// The algorithm of a SET that names just this one (RFC 5652 5.1, RFC 6488 2.1.2).
    pub fn take_set_from<S: Source>(
        cons: &mut Constructed<S>,
    ) -> Result<Self, DecodeError<S::Error>>
        ensures reads { ReadsAs (λ a. (tt, tt)) AreDigestAlgorithms
            (here S.rest cons.old) result (here S.rest cons.new) }
        ensures failed { OnErr result ((here S.rest cons.new).failed ≡ true) }
        ensures no_memory { IfErr result (λ e. e ≢ Memory) }
    {
        cons.take_set(
            |cons|
                ensures reads { ReadsFields (λ a. (tt, tt)) (λ m. Then IsDigestAlgorithm End)
                    (here S.rest cons.old) result (here S.rest cons.new) }
                ensures no_memory { IfErr result (λ e. e ≢ Memory) }
            { take_set_fields(cons) },
        )
    }

    /// What is written of it: without NULL (RFC 5754 2).
    pub fn encode(self) -> AlgorithmIdentifier
        ensures { result ≡ record { kind = sha256; has_null = false } }
    {
        AlgorithmIdentifier::new(SHA256, false)
    }

    /// What is written of a SET of it alone.
    pub fn encode_set(self) -> encode::Constructed<AlgorithmIdentifier>
        ensures tag { result.tag ≡ set_tag }
        ensures algorithm { result.inner ≡ record { kind = sha256; has_null = false } }
    {
        encode::Constructed {
            tag: Tag::SET,
            inner: self.encode(),
        }
    }
}
