//! What the key of a certificate is for, written (RFC 6487 4.8.1, 4.8.4, 4.8.5).

ghost use Rattle.std.specs.Prelude.{◌≡◌, false, true, option_copied};
ghost use Rattle.certs.specs.certs_basics.Identifiers as id;
ghost use Rattle.certs_extension.specs.Usages.{usage_octets};
ghost use Rattle.certs.specs.bcder_octets.BitContents.{bit_string_tag};
ghost use Rattle.certs.specs.Values.{extended, extended_if, key_usage};

use crate::written::extension::{ExtensionEncoder, encode_extension};
use crate::written::parts::{Sequence, Truth};
use certs_extension::usage::EncodeUsage;
use certs_extension::{ExtendedKeyUsage, KeyUsage, KeyUsageValue};
use certs_key::Mode;
use certs_key::encode::{EncodeError, Values};
use certs_key::oid::{CE_BASIC_CONSTRAINTS, CE_EXTENDED_KEY_USAGE, CE_KEY_USAGE};
use std::io::Write;
use std::marker::Model;

/// Whether the subject is an authority: `SEQUENCE { cA BOOLEAN DEFAULT FALSE }`, which is empty where
/// it isn't (RFC 6487 4.8.1). Contracts see whether it is.
#[derive(Drop)]
pub struct ConstraintsValue(Sequence<Truth>);

impl Model for ConstraintsValue {
    ghost use Rattle.std.specs.Prelude.{Bool};

    ghost Value = { Bool };

    ghost view = { λ v. v.0.0.0 };
}

impl Values for ConstraintsValue {
    ghost use Rattle.certs.specs.Values.{basic_constraints};

    ghost trees = { λ v. (basic_constraints v).trees };

    ghost writes = { λ v. (basic_constraints v).writes };

    fn encoded_len(&self, mode: Mode) -> Result<usize, EncodeError> {
        self.0.encoded_len(mode)
    }

    fn write_encoded<W: Write>(&self, mode: Mode, target: &mut W) -> Result<(), EncodeError> {
        self.0.write_encoded(mode, target)
    }

    ghost spelled = { λ v. (basic_constraints v).spelled };

    ghost one_text = { λ v. (basic_constraints v).one_text };
}

/// The extension with basic constraints, if there are any; it is critical (RFC 6487 4.8.1).
pub fn constraints_extension(ca: Option<bool>) -> Option<ExtensionEncoder<ConstraintsValue>>
    ensures { result ≡ extended_if id.basic_constraints true ca }
{
    match ca {
        Some(ca) => Some(encode_extension(
            CE_BASIC_CONSTRAINTS,
            true,
            ConstraintsValue(Sequence(Truth(ca))),
        )),
        None => None,
    }
}

/// What the key is for: a BIT STRING (RFC 6487 4.8.4). Contracts see the usage.
#[derive(Drop)]
pub struct UsageValue(KeyUsage);

impl Model for UsageValue {
    ghost use Rattle.certs.specs.certs_extension.declared.forms.KeyUsage.{KeyUsage};

    ghost Value = { KeyUsage };

    ghost view = { λ v. v.0 };
}

impl UsageValue {
    // The BIT STRING.
    fn bits(&self) -> KeyUsageValue
        ensures tag { result.tag ≡ bit_string_tag }
        ensures octets { result.content.0.now ≡ usage_octets self.now }
    {
        self.0.encode()
    }
}

impl Values for UsageValue {
    ghost trees = { λ v. (key_usage v).trees };

    ghost writes = { λ v. (key_usage v).writes };

    fn encoded_len(&self, mode: Mode) -> Result<usize, EncodeError> {
        let value = self.bits();
        value.encoded_len(mode)
    }

    fn write_encoded<W: Write>(&self, mode: Mode, target: &mut W) -> Result<(), EncodeError> {
        let value = self.bits();
        value.write_encoded(mode, target)
    }

    ghost spelled = { λ v. (key_usage v).spelled };

    ghost one_text = { λ v. (key_usage v).one_text };
}

/// The extension with the key usage, which is critical (RFC 6487 4.8.4).
pub fn usage_extension(usage: KeyUsage) -> ExtensionEncoder<UsageValue>
    ensures { result ≡ extended id.key_usage true usage }
{
    encode_extension(CE_KEY_USAGE, true, UsageValue(usage))
}

/// What else the key is for: a SEQUENCE of the purposes (RFC 5280 4.2.1.12). Contracts see them.
#[derive(Drop)]
pub struct PurposesValue<'a>(&'a ExtendedKeyUsage);

impl<'a> Model for PurposesValue<'a> {
    ghost use Rattle.std.specs.Prelude.{ℕ, List};

    ghost Value = { List (List ℕ) };

    ghost view = { λ v. v.0.now };
}

impl Values for PurposesValue<'_> {
    ghost use Rattle.certs.specs.Values.{purposes};

    ghost trees = { λ v. (purposes v).trees };

    ghost writes = { λ v. (purposes v).writes };

    fn encoded_len(&self, mode: Mode) -> Result<usize, EncodeError> {
        self.0.encoded_len(mode)
    }

    fn write_encoded<W: Write>(&self, mode: Mode, target: &mut W) -> Result<(), EncodeError> {
        self.0.write_encoded(mode, target)
    }

    ghost spelled = { λ v. (purposes v).spelled };

    ghost one_text = { λ v. (purposes v).one_text };
}

/// The extension with the extended key usage, if there is one; it isn't critical (RFC 6487 4.8.5).
pub fn purposes_extension(
    purposes: Option<&ExtendedKeyUsage>,
) -> Option<ExtensionEncoder<PurposesValue<'_>>>
    ensures { result ≡ extended_if id.extended_key_usage false (option_copied purposes.entry) }
{
    match purposes {
        Some(purposes) => Some(encode_extension(
            CE_EXTENDED_KEY_USAGE,
            false,
            PurposesValue(purposes),
        )),
        None => None,
    }
}
