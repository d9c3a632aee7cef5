//! What the types of a certificate's fields promise of them: functions that do nothing.

ghost use Rattle.std.specs.Prelude.{IfSome, option_copied};
ghost use Rattle.certs.specs.certs_basics.Basics.{IsSmallEnough, IsTwentyLong};
ghost use Rattle.certs.specs.certs_basics.Keys.{HasEncoding};
ghost use Rattle.certs.specs.certs_extension.Purposes.{AreKeyPurposes};
ghost use Rattle.certs.specs.resources_as.Written.{HasMaximal};
ghost use Rattle.certs.specs.resources_ip.Written.{FitsChoice};
ghost use Rattle.certs.specs.resources_ip_prefix.declared.addr.AddressFamily.TheVariants.{Ipv4, Ipv6};
ghost use Rattle.certs.specs.Laws.{AreAccessUris, IsLawful};
ghost use Rattle.certs_name.specs.Named.{IsNamed};
ghost use Rattle.certs_basics.specs.Uris.{IsHttps, IsRsync};
ghost use Rattle.resources_ip.specs.WholeSets.{ListsWhole};

use crate::written::{KeyIdentifier, Name};
use certs_basics::uri::{Https, Rsync};
use certs_cert::TbsCert;
use certs_extension::ExtendedKeyUsage;
use certs_key::laws::serials_are_small;

// A name is one.
fn name_is(name: &Name)
    ensures { IsNamed name.now }
{
    let _octets = name.as_slice();
}

// An rsync URI is one.
fn rsync_is(uri: Option<&Rsync>)
    ensures { IfSome (option_copied uri.entry) IsRsync }
{
    if let Some(uri) = uri {
        let _octets = uri.as_slice();
    }
}

// An https URI is one.
fn https_is(uri: Option<&Https>)
    ensures { IfSome (option_copied uri.entry) IsHttps }
{
    if let Some(uri) = uri {
        let _octets = uri.as_slice();
    }
}

// The identifier of a key has 20 octets.
fn identifier_is(identifier: Option<KeyIdentifier>)
    ensures { IfSome identifier IsTwentyLong }
{
    if let Some(identifier) = identifier {
        let _octets = identifier.as_slice();
    }
}

// Purposes are some, each by an identifier.
fn purposes_are_some(usage: Option<&ExtendedKeyUsage>)
    ensures { IfSome (option_copied usage.entry) AreKeyPurposes }
{
    if let Some(usage) = usage {
        let _purpose = usage.inspect_router();
    }
}

// The serial number is below 2^160.
fn serial_is(tbs: &TbsCert)
    ensures { IsSmallEnough tbs.now.serial }
{
    serials_are_small(tbs.serial_number());
}

// The name of the issuer is one.
fn issuer_is(tbs: &TbsCert)
    ensures { IsNamed tbs.now.issuer }
{
    name_is(tbs.issuer());
}

// The name of the subject is one.
fn subject_is(tbs: &TbsCert)
    ensures { IsNamed tbs.now.subject }
{
    name_is(tbs.subject());
}

// The key has encoded octets.
fn key_is(tbs: &TbsCert)
    ensures { HasEncoding tbs.now.key }
{
    let _octets = tbs.subject_public_key_info().encoded();
}

// The identifier of the subject's key has 20 octets.
fn subject_key_is(tbs: &TbsCert)
    ensures { IsTwentyLong tbs.now.subject_key_identifier }
{
    let identifier = tbs.subject_key_identifier();
    let _octets = identifier.as_slice();
}

// The identifier of the issuer's key, if it is there, has 20 octets.
fn authority_key_is(tbs: &TbsCert)
    ensures { IfSome tbs.now.authority_key_identifier IsTwentyLong }
{
    identifier_is(tbs.authority_key_identifier());
}

// What else the key is for, if it is there, is some purpose, each by an identifier.
fn purposes_are(tbs: &TbsCert)
    ensures { IfSome tbs.now.extended_key_usage AreKeyPurposes }
{
    purposes_are_some(tbs.extended_key_usage());
}

// The URI of the revocation list, if it is there, is an rsync URI.
fn crl_is(tbs: &TbsCert)
    ensures { IfSome tbs.now.crl_uri IsRsync }
{
    rsync_is(tbs.crl_uri());
}

// The URI of the issuer's certificate, if it is there, is an rsync URI.
fn ca_issuer_is(tbs: &TbsCert)
    ensures { IfSome tbs.now.ca_issuer IsRsync }
{
    rsync_is(tbs.ca_issuer());
}

// The URI of the repository, if it is there, is an rsync URI.
fn repository_is(tbs: &TbsCert)
    ensures { IfSome tbs.now.access.repository IsRsync }
{
    rsync_is(tbs.ca_repository());
}

// The URI of the manifest, if it is there, is an rsync URI.
fn manifest_is(tbs: &TbsCert)
    ensures { IfSome tbs.now.access.manifest IsRsync }
{
    rsync_is(tbs.rpki_manifest());
}

// The URI of the signed object, if it is there, is an rsync URI.
fn object_is(tbs: &TbsCert)
    ensures { IfSome tbs.now.access.object IsRsync }
{
    rsync_is(tbs.signed_object());
}

// The URI of the notification file, if it is there, is an https URI.
fn notify_is(tbs: &TbsCert)
    ensures { IfSome tbs.now.access.notify IsHttps }
{
    https_is(tbs.rpki_notify());
}

// The URIs of all access methods are such.
fn access_is(tbs: &TbsCert)
    ensures { AreAccessUris tbs.now.access }
{
    repository_is(tbs);
    manifest_is(tbs);
    object_is(tbs);
    notify_is(tbs);
}

// IPv4 resources over whole addresses are maximal runs of such.
fn v4_is(tbs: &TbsCert)
    ensures { ListsWhole tbs.now.v4 → FitsChoice Ipv4 tbs.now.v4 }
{
    let _resources = tbs.v4_resources().encode_ref();
}

// IPv6 resources are maximal runs.
fn v6_is(tbs: &TbsCert)
    ensures { FitsChoice Ipv6 tbs.now.v6 }
{
    let _resources = tbs.v6_resources().encode_ref();
}

// AS resources are maximal runs.
fn asn_is(tbs: &TbsCert)
    ensures { HasMaximal tbs.now.asn }
{
    let _resources = tbs.as_resources().encode_ref();
}

/// All fields are what their types promise.
pub fn fields_are_lawful(tbs: &TbsCert)
    ensures { IsLawful tbs.now }
{
    serial_is(tbs);
    issuer_is(tbs);
    subject_is(tbs);
    key_is(tbs);
    subject_key_is(tbs);
    authority_key_is(tbs);
    purposes_are(tbs);
    crl_is(tbs);
    ca_issuer_is(tbs);
    access_is(tbs);
    v4_is(tbs);
    v6_is(tbs);
    asn_is(tbs);
}
