//! Algorithms of signatures (RFC 7935 2).

ghost use Rattle.std.specs.Prelude.{◌≡◌, ◌≢◌, ◌↔◌, true, Bool, IfErr, IsTrue, OnErr};
ghost use Rattle.certs_key.specs.bcder_source.Errors.{OnlyContent};
ghost use Rattle.certs_key.specs.bcder_source.declared.error.DecodeError.TheVariants.{Memory};
ghost use Rattle.certs_key.specs.bcder_tree.Tree.{Tree};
ghost use Rattle.certs_key.specs.bcder_tree.declared.mode.Mode.{Mode as ModeValue};
ghost use Rattle.certs_key.specs.bcder_primitive.Plain.{plain, ReadsOctetsAs};
ghost use Rattle.certs_key.specs.bcder_content.Exact.{ReadsAs};
ghost use Rattle.certs_key.specs.bcder_content.Here.{here};
ghost use Rattle.certs_key.specs.bcder_content.InMode.{ReadsFields};
ghost use Rattle.certs_key.specs.Algorithms.{AlgorithmValue, AreCmsFields, AreFields, IsCmsAlgorithm, NamesSignature, fields_of};
ghost use Rattle.certs_key.specs.certs_basics.Basics.{IsAlgorithm};
ghost use Rattle.certs_key.specs.certs_basics.Identifiers.{rsa_encryption, sha256_with_rsa};

use crate::algorithm::identifier::AlgorithmIdentifier;
use certs_name::Tag;
use certs_name::decode::{Constructed, ContentError, DecodeError, Primitive, Source};
use certs_name::oid::{RSA_ENCRYPTION, SHA256_WITH_RSA_ENCRYPTION};
use std::marker::Model;

/// An algorithm by which certificates and lists are signed.
///
/// `x509` is its AlgorithmIdentifier there, and `x509_writes` what is written of it.
pub trait SignatureAlgorithm: Sized {
    ghost x509: { ModeValue → Tree → Self → Type 0 };

    ghost x509_writes: { Self → AlgorithmValue };

    /// The algorithm that is named next, in a certificate or a list.
    fn x509_take_from<S: Source>(cons: &mut Constructed<S>) -> Result<Self, DecodeError<S::Error>>
        ensures reads { ReadsAs (λ a. a) (x509 (here S.rest cons.old).mode)
            (here S.rest cons.old) result (here S.rest cons.new) }
        ensures failed { OnErr result ((here S.rest cons.new).failed ≡ true) }
        ensures no_memory { IfErr result (λ e. e ≢ Memory) };

    /// What is written of it in a certificate or a list.
    fn x509_encode(&self) -> AlgorithmIdentifier
        ensures { result ≡ x509_writes self.now };
}

/// RSA with SHA-256, by which all that is published in RPKI is signed, and whether NULL stands after its identifier.
/// Contracts see whether NULL is there, which is part of equality.
#[derive(Clone, Copy, Debug, PartialEq, Eq, Hash)]
pub struct RpkiSignatureAlgorithm {
    has_null: bool,
}

impl Model for RpkiSignatureAlgorithm {
    ghost use Rattle.std.specs.Prelude.{Bool};

    ghost Value = { Bool };

    ghost view = { λ a. a.has_null };

    ghost inverse = { λ b. record { has_null = b } };
}

/// With NULL.
impl Default for RpkiSignatureAlgorithm {
    ghost is_default = { λ a. a ≡ true };

    fn default() -> Self {
        RpkiSignatureAlgorithm { has_null: true }
    }
}

// How many content octets either identifier has.
const OID_LEN: usize = 9;

// Whether octets are those of one of the two identifiers.
fn names_signature(octets: &[u8]) -> bool
    ensures { IsTrue result ↔ NamesSignature octets.now tt }
{
    octets == RSA_ENCRYPTION.as_slice() || octets == SHA256_WITH_RSA_ENCRYPTION.as_slice()
}

// Marks a content as failed, and refuses it.
fn refuse<S: Source>(prim: &mut Primitive<S>) -> DecodeError<S::Error>
    ensures error { OnlyContent result (Unit {0}) }
    ensures failed { (plain S.rest prim.new).failed ≡ true }
{
    prim.failed = true;
    prim.content_err(ContentError::from_static("invalid signature algorithm"))
}

// Goes past the content of either identifier.
fn skip_names<S: Source>(prim: &mut Primitive<S>) -> Result<(), DecodeError<S::Error>>
    ensures reads { ReadsOctetsAs (λ x. x) NamesSignature
        (plain S.rest prim.old) result (plain S.rest prim.new) }
    ensures failed { OnErr result ((plain S.rest prim.new).failed ≡ true) }
    ensures no_memory { IfErr result (λ e. e ≢ Memory) }
{
    if prim.failed {
        return Err(refuse(prim));
    }
    let _count = match prim.request(OID_LEN) {
        Ok(count) => count,
        Err(error) => return Err(DecodeError::Source(error)),
    };
    let is_named = names_signature((*prim).slice());
    if is_named {
        prim.advance(OID_LEN);
        return Ok(());
    }
    Err(refuse(prim))
}

// The fields of an algorithm in a certificate.
fn take_x509_fields<S: Source>(
    cons: &mut Constructed<S>,
) -> Result<RpkiSignatureAlgorithm, DecodeError<S::Error>>
    ensures reads { ReadsFields fields_of (λ m. AreFields sha256_with_rsa)
        (here S.rest cons.old) result (here S.rest cons.new) }
    ensures no_memory { IfErr result (λ e. e ≢ Memory) }
{
    let _id = SHA256_WITH_RSA_ENCRYPTION.skip_if(cons)?;
    let null = cons.take_opt_null()?;
    let has_null = null.is_some();
    Ok(RpkiSignatureAlgorithm { has_null })
}

// The fields of an algorithm in a signed object.
fn take_cms_fields<S: Source>(
    cons: &mut Constructed<S>,
) -> Result<RpkiSignatureAlgorithm, DecodeError<S::Error>>
    ensures reads { ReadsFields fields_of (λ m. AreCmsFields)
        (here S.rest cons.old) result (here S.rest cons.new) }
    ensures no_memory { IfErr result (λ e. e ≢ Memory) }
{
    let _id = cons.take_primitive_if(
        Tag::OID,
        |prim|
            ensures reads { ReadsOctetsAs (λ x. x) NamesSignature
                (plain S.rest prim.old) result (plain S.rest prim.new) }
            ensures no_memory { IfErr result (λ e. e ≢ Memory) }
        { skip_names(prim) },
    )?;
    let null = cons.take_opt_null()?;
    let has_null = null.is_some();
    Ok(RpkiSignatureAlgorithm { has_null })
}

impl RpkiSignatureAlgorithm {
    /// Whether NULL stands after the identifier.
    pub fn has_null(self) -> bool
        ensures { result ≡ self }
    {
        self.has_null
    }

    /// The algorithm of a signed object's signer that is next: rsaEncryption or sha256WithRSAEncryption, with NULL or
    /// without (RFC 7935 2).
    pub fn cms_take_from<S: Source>(
        cons: &mut Constructed<S>,
    ) -> Result<Self, DecodeError<S::Error>>
        ensures reads { ReadsAs (λ a. a) IsCmsAlgorithm
            (here S.rest cons.old) result (here S.rest cons.new) }
        ensures failed { OnErr result ((here S.rest cons.new).failed ≡ true) }
        ensures no_memory { IfErr result (λ e. e ≢ Memory) }
    {
        cons.take_sequence(
            |cons|
                ensures reads { ReadsFields fields_of (λ m. AreCmsFields)
                    (here S.rest cons.old) result (here S.rest cons.new) }
                ensures no_memory { IfErr result (λ e. e ≢ Memory) }
            { take_cms_fields(cons) },
        )
    }

    /// What is written of it in a signed object: rsaEncryption with NULL, whatever was read (RFC 7935 2).
    pub fn cms_encode(self) -> AlgorithmIdentifier
        ensures { result ≡ record { kind = rsa_encryption; has_null = true } }
    {
        AlgorithmIdentifier::new(RSA_ENCRYPTION, true)
    }
}

/// sha256WithRSAEncryption, with NULL or without (RFC 5280 4.1.1.2, RFC 7935 2).
impl SignatureAlgorithm for RpkiSignatureAlgorithm {
    ghost x509 = { λ m. IsAlgorithm };

    ghost x509_writes = { λ a. record { kind = sha256_with_rsa; has_null = a } };

    fn x509_take_from<S: Source>(cons: &mut Constructed<S>) -> Result<Self, DecodeError<S::Error>> {
        cons.take_sequence(
            |cons|
                ensures reads { ReadsFields fields_of (λ m. AreFields sha256_with_rsa)
                    (here S.rest cons.old) result (here S.rest cons.new) }
                ensures no_memory { IfErr result (λ e. e ≢ Memory) }
            { take_x509_fields(cons) },
        )
    }

    fn x509_encode(&self) -> AlgorithmIdentifier {
        AlgorithmIdentifier::new(SHA256_WITH_RSA_ENCRYPTION, self.has_null)
    }
}
