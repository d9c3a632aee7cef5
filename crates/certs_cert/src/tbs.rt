//! What is signed of a certificate.

ghost use Rattle.std.specs.Prelude.{◌≡◌, IfOk, IfSome, IsOk};
ghost use Rattle.certs_cert.specs.certs_key.Digesting.{digests_of};
ghost use Rattle.certs_cert.specs.certs_basics.Keys.{identifier};
ghost use Rattle.certs_cert.specs.Fresh.{IsSubjectFor, fresh};

use certs_extension::ExtendedKeyUsage;
use certs_extension::access::{Https, Rsync};
use certs_extension::forms::{AsResources, IpResources, KeyUsage, Overclaim, Validity};
use certs_x509::signed::{
    Digester, KeyIdentifier, Name, PublicKey, RpkiSignatureAlgorithm, Serial,
};
use std::alloc::{AllocError, Global};
use std::marker::Model;

/// What is signed of a certificate: its fields and its extensions (RFC 5280 4.1.2, RFC 6487 4).
/// Contracts see all of them.
#[derive(Debug, Drop)]
pub struct TbsCert {
    pub(crate) serial_number: Serial,
    pub(crate) signature: RpkiSignatureAlgorithm,
    pub(crate) issuer: Name,
    pub(crate) validity: Validity,
    pub(crate) subject: Name,
    pub(crate) subject_public_key_info: PublicKey,
    pub(crate) basic_ca: Option<bool>,
    pub(crate) subject_key_identifier: KeyIdentifier,
    pub(crate) authority_key_identifier: Option<KeyIdentifier>,
    pub(crate) key_usage: KeyUsage,
    pub(crate) extended_key_usage: Option<ExtendedKeyUsage>,
    pub(crate) crl_uri: Option<Rsync>,
    pub(crate) ca_issuer: Option<Rsync>,
    pub(crate) ca_repository: Option<Rsync>,
    pub(crate) rpki_manifest: Option<Rsync>,
    pub(crate) signed_object: Option<Rsync>,
    pub(crate) rpki_notify: Option<Https>,
    pub(crate) overclaim: Overclaim,
    pub(crate) v4_resources: IpResources,
    pub(crate) v6_resources: IpResources,
    pub(crate) as_resources: AsResources,
}

impl Model for TbsCert {
    ghost use Rattle.certs_extension.specs.Cert.{TbsValue};

    ghost Value = { TbsValue };

    ghost view = { λ t. record {
      serial = t.serial_number;
      has_null = t.signature;
      issuer = t.issuer;
      not_before = t.validity.not_before;
      not_after = t.validity.not_after;
      subject = t.subject;
      key = t.subject_public_key_info;
      basic_ca = t.basic_ca;
      subject_key_identifier = t.subject_key_identifier;
      authority_key_identifier = t.authority_key_identifier;
      key_usage = t.key_usage;
      extended_key_usage = t.extended_key_usage;
      crl_uri = t.crl_uri;
      ca_issuer = t.ca_issuer;
      access = record {
        repository = t.ca_repository;
        manifest = t.rpki_manifest;
        object = t.signed_object;
        notify = t.rpki_notify;
      };
      overclaim = t.overclaim;
      v4 = t.v4_resources;
      v6 = t.v6_resources;
      asn = t.as_resources;
    } };
}

// The name, or else the one that is made from the key.
fn subject_for<D: Digester>(
    alloc: Global,
    subject: Option<Name>,
    key: &PublicKey,
    digester: &D,
) -> Result<Name, AllocError>
    ensures subject { IfOk result (IsSubjectFor
        (digests_of D.sha256_digest D.sha1_digest digester.now) key.now subject) }
    ensures given { IfSome subject (λ _. IsOk result) }
{
    match subject {
        Some(subject) => Ok(subject),
        None => key.to_subject_name(alloc, digester),
    }
}

impl TbsCert {
    /// A certificate's fields with these: the subject's name is the key's where none is given, NULL
    /// stands in the algorithm, there are no other extensions, and all resources are missing.
    /// Memory is taken for the key's name alone.
    pub fn new<D: Digester>(
        alloc: Global,
        serial_number: Serial,
        issuer: Name,
        validity: Validity,
        subject: Option<Name>,
        subject_public_key_info: PublicKey,
        key_usage: KeyUsage,
        overclaim: Overclaim,
        digester: &D,
    ) -> Result<TbsCert, AllocError>
        ensures fields { IfOk result (λ t. t ≡ fresh serial_number issuer validity t.subject
            subject_public_key_info
            (identifier (digests_of D.sha256_digest D.sha1_digest digester.now)
            subject_public_key_info)
            key_usage overclaim) }
        ensures subject { IfOk result (λ t. IsSubjectFor
            (digests_of D.sha256_digest D.sha1_digest digester.now) subject_public_key_info
            subject t.subject) }
        ensures given { IfSome subject (λ _. IsOk result) }
    {
        let subject = subject_for(alloc, subject, &subject_public_key_info, digester)?;
        let subject_key_identifier = subject_public_key_info.key_identifier(digester);
        Ok(TbsCert {
            serial_number,
            signature: RpkiSignatureAlgorithm::default(),
            issuer,
            validity,
            subject,
            subject_public_key_info,
            basic_ca: None,
            subject_key_identifier,
            authority_key_identifier: None,
            key_usage,
            extended_key_usage: None,
            crl_uri: None,
            ca_issuer: None,
            ca_repository: None,
            rpki_manifest: None,
            signed_object: None,
            rpki_notify: None,
            overclaim,
            v4_resources: IpResources::missing(),
            v6_resources: IpResources::missing(),
            as_resources: AsResources::missing(),
        })
    }
}
