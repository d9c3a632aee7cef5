//! The extensions of a certificate, written in the profile's order (RFC 6487 4.8).

ghost use Rattle.std.specs.Prelude.{◌≡◌};
ghost use Rattle.certs.specs.Tbs.{extensions, key_parts, place_parts, resource_parts};
ghost use Rattle.certs.specs.Tbs.{written_keys, written_places, written_resources};

use crate::written::{
    AsValue, AuthorityKeyValue, ConstraintsValue, CrlValue, EncodeAsExtension, EncodeError,
    EncodeIpExtension, ExtensionEncoder, IpResources, IpValue, IssuerAccessValue, Mode,
    PolicyValue, PurposesValue, SubjectAccessValue, SubjectKeyValue, UsageValue, Values,
    authority_key_extension, constraints_extension, crl_extension, issuer_extension,
    policy_extension, purposes_extension, subject_access_value, subject_extension,
    subject_key_extension, usage_extension,
};
use certs_cert::TbsCert;
use std::io::Write;
use std::marker::Model;

// The extensions of what the key is and is for.
#[derive(Drop)]
struct KeyExtensions<'a>(&'a TbsCert);

impl<'a> Model for KeyExtensions<'a> {
    ghost use Rattle.certs.specs.certs_extension.Cert.{TbsValue};

    ghost Value = { TbsValue };

    ghost view = { λ v. v.0.now };
}

// Their encoders.
type KeyEncoders<'a> = (
    Option<ExtensionEncoder<ConstraintsValue>>,
    ExtensionEncoder<SubjectKeyValue>,
    Option<ExtensionEncoder<AuthorityKeyValue>>,
    ExtensionEncoder<UsageValue>,
    Option<ExtensionEncoder<PurposesValue<'a>>>,
);

impl<'a> KeyExtensions<'a> {
    fn fields(&self) -> KeyEncoders<'a>
        ensures { (result.0, (result.1, (result.2, (result.3, result.4)))) ≡ key_parts self.now }
    {
        let tbs = self.0;
        (
            constraints_extension(tbs.basic_ca()),
            subject_key_extension(tbs.subject_key_identifier()),
            authority_key_extension(tbs.authority_key_identifier()),
            usage_extension(tbs.key_usage()),
            purposes_extension(tbs.extended_key_usage()),
        )
    }
}

impl Values for KeyExtensions<'_> {
    ghost trees = { λ c. (written_keys (key_parts c)).trees };

    ghost writes = { λ c. (written_keys (key_parts c)).writes };

    fn encoded_len(&self, mode: Mode) -> Result<usize, EncodeError> {
        let value = self.fields();
        value.encoded_len(mode)
    }

    fn write_encoded<W: Write>(&self, mode: Mode, target: &mut W) -> Result<(), EncodeError> {
        let value = self.fields();
        value.write_encoded(mode, target)
    }

    ghost spelled = { λ c. (written_keys (key_parts c)).spelled };

    ghost one_text = { λ c. (written_keys (key_parts c)).one_text };
}

// The extensions of where things are found.
#[derive(Drop)]
struct PlaceExtensions<'a>(&'a TbsCert);

impl<'a> Model for PlaceExtensions<'a> {
    ghost use Rattle.certs.specs.certs_extension.Cert.{TbsValue};

    ghost Value = { TbsValue };

    ghost view = { λ v. v.0.now };
}

// Their encoders.
type PlaceEncoders<'a> = (
    Option<ExtensionEncoder<CrlValue<'a>>>,
    Option<ExtensionEncoder<IssuerAccessValue<'a>>>,
    Option<ExtensionEncoder<SubjectAccessValue<'a>>>,
);

impl<'a> PlaceExtensions<'a> {
    fn fields(&self) -> PlaceEncoders<'a>
        ensures { (result.0, (result.1, result.2)) ≡ place_parts self.now }
    {
        let tbs = self.0;
        let access = subject_access_value(
            tbs.ca_repository(),
            tbs.rpki_manifest(),
            tbs.signed_object(),
            tbs.rpki_notify(),
        );
        (
            crl_extension(tbs.crl_uri()),
            issuer_extension(tbs.ca_issuer()),
            subject_extension(access),
        )
    }
}

impl Values for PlaceExtensions<'_> {
    ghost trees = { λ c. (written_places (place_parts c)).trees };

    ghost writes = { λ c. (written_places (place_parts c)).writes };

    fn encoded_len(&self, mode: Mode) -> Result<usize, EncodeError> {
        let value = self.fields();
        value.encoded_len(mode)
    }

    fn write_encoded<W: Write>(&self, mode: Mode, target: &mut W) -> Result<(), EncodeError> {
        let value = self.fields();
        value.write_encoded(mode, target)
    }

    ghost spelled = { λ c. (written_places (place_parts c)).spelled };

    ghost one_text = { λ c. (written_places (place_parts c)).one_text };
}

// The extensions of resources.
#[derive(Drop)]
struct ResourceExtensions<'a>(&'a TbsCert);

impl<'a> Model for ResourceExtensions<'a> {
    ghost use Rattle.certs.specs.certs_extension.Cert.{TbsValue};

    ghost Value = { TbsValue };

    ghost view = { λ v. v.0.now };
}

// Their encoders.
type ResourceEncoders<'a> = (
    ExtensionEncoder<PolicyValue>,
    Option<ExtensionEncoder<IpValue<'a>>>,
    Option<ExtensionEncoder<AsValue<'a>>>,
);

impl<'a> ResourceExtensions<'a> {
    fn fields(&self) -> ResourceEncoders<'a>
        ensures { (result.0, (result.1, result.2)) ≡ resource_parts self.now }
    {
        let tbs = self.0;
        let policy = tbs.overclaim();
        (
            policy_extension(policy),
            IpResources::encode_extension(policy, tbs.v4_resources(), tbs.v6_resources()),
            tbs.as_resources().encode_extension(policy),
        )
    }
}

impl Values for ResourceExtensions<'_> {
    ghost trees = { λ c. (written_resources (resource_parts c)).trees };

    ghost writes = { λ c. (written_resources (resource_parts c)).writes };

    fn encoded_len(&self, mode: Mode) -> Result<usize, EncodeError> {
        let value = self.fields();
        value.encoded_len(mode)
    }

    fn write_encoded<W: Write>(&self, mode: Mode, target: &mut W) -> Result<(), EncodeError> {
        let value = self.fields();
        value.write_encoded(mode, target)
    }

    ghost spelled = { λ c. (written_resources (resource_parts c)).spelled };

    ghost one_text = { λ c. (written_resources (resource_parts c)).one_text };
}

/// All extensions of a certificate that are there. Contracts see the certificate's fields.
#[derive(Drop)]
pub struct ExtensionsValue<'a>(&'a TbsCert);

impl<'a> Model for ExtensionsValue<'a> {
    ghost use Rattle.certs.specs.certs_extension.Cert.{TbsValue};

    ghost Value = { TbsValue };

    ghost view = { λ v. v.0.now };
}

impl<'a> ExtensionsValue<'a> {
    // The extensions of these fields.
    pub(crate) fn new(tbs: &'a TbsCert) -> ExtensionsValue<'a>
        ensures { result ≡ tbs.now }
    {
        ExtensionsValue(tbs)
    }
}

impl Values for ExtensionsValue<'_> {
    ghost trees = { λ c. (extensions c).trees };

    ghost writes = { λ c. (extensions c).writes };

    fn encoded_len(&self, mode: Mode) -> Result<usize, EncodeError> {
        let value = (
            KeyExtensions(self.0),
            PlaceExtensions(self.0),
            ResourceExtensions(self.0),
        );
        value.encoded_len(mode)
    }

    fn write_encoded<W: Write>(&self, mode: Mode, target: &mut W) -> Result<(), EncodeError> {
        let value = (
            KeyExtensions(self.0),
            PlaceExtensions(self.0),
            ResourceExtensions(self.0),
        );
        value.write_encoded(mode, target)
    }

    ghost spelled = { λ c. (extensions c).spelled };

    ghost one_text = { λ c. (extensions c).one_text };
}
