//! Each kind of extension is read once, by its own reader.

ghost use Rattle.std.specs.Prelude.{◌≡◌, IfErr, OnErr, OnOk};
ghost use Rattle.certs_extension.specs.bcder_tree.declared.mode.Mode.TheVariants.{Der};
ghost use Rattle.certs_extension.specs.bcder_tree.Strings.{octet_string_tag};
ghost use Rattle.certs_extension.specs.bcder_content.Captures.{rest_of};
ghost use Rattle.certs_extension.specs.bcder_content.Exact.{ReadsAs};
ghost use Rattle.certs_extension.specs.bcder_content.Here.{here};
ghost use Rattle.certs_extension.specs.certs_basics.Basics.{IsKeyIdentifier};
ghost use Rattle.certs_extension.specs.resources_as.Encodings.{IsAsResources};
ghost use Rattle.certs_extension.specs.Access as names;
ghost use Rattle.certs_extension.specs.Grammars.{IsAuthority as AccessIssuer, IsDistribution};
ghost use Rattle.certs_extension.specs.Raw.{extension_value};
ghost use Rattle.certs_extension.specs.CertAccess.{IsSubjectAccess};
ghost use Rattle.certs_extension.specs.Extensions.{AreConstraints, IsAuthority, IsAuthorityAccess, IsAuthorityKeyIdentifier, IsBasicConstraints, IsCrlDistribution, IsExtendedKeyUsage, IsKeyUsage, IsPolicies, IsSubjectKeyIdentifier, IsUsage, May, Must, MustNot};
ghost use Rattle.certs_extension.specs.Filling.{CannotFill, Fills, Under};
ghost use Rattle.certs_extension.specs.Slots.{AreFamilies};

use crate::access::{
    Rsync, SubjectAccess, take_authority_access, take_crl_distribution, take_subject_access,
};
use crate::decode::{Constructed, DecodeError, Source};
use crate::forms::{AsResources, IpFamilies, IpResources, KeyUsage, Overclaim};
use crate::{
    ExtendedKeyUsage, Extension, ExtensionError, KeyIdentifier, Need, put_once,
    take_authority_key_identifier, take_basic_constraints, take_key_usage, take_policies,
};
use std::alloc::Global;

// Puts the basic constraints.
pub(crate) fn put_basic_constraints(
    slot: &mut Option<bool>,
    extension: Extension,
) -> Result<(), ExtensionError>
    ensures ok { OnOk result
        (Fills Must IsBasicConstraints (extension_value extension) slot.old slot.new) }
    ensures refused { IfErr result
        (CannotFill Must IsBasicConstraints (extension_value extension) slot.old) }
    ensures same { OnErr result (slot.new ≡ slot.old) }
{
    put_once(
        slot,
        Need::Must,
        extension,
        |cons|
            ensures { ReadsAs (λ b. b) (AreConstraints (here rest_of cons.old).mode)
                (here rest_of cons.old) result (here rest_of cons.new) }
        { take_basic_constraints(cons) },
    )
}

// Puts the identifier of the subject's key.
pub(crate) fn put_subject_key_identifier(
    slot: &mut Option<KeyIdentifier>,
    alloc: Global,
    extension: Extension,
) -> Result<(), ExtensionError>
    ensures ok { OnOk result
        (Fills MustNot IsSubjectKeyIdentifier (extension_value extension) slot.old slot.new) }
    ensures refused { IfErr result
        (CannotFill MustNot IsSubjectKeyIdentifier (extension_value extension) slot.old) }
    ensures same { OnErr result (slot.new ≡ slot.old) }
{
    put_once(
        slot,
        Need::MustNot,
        extension,
        |cons|
            ensures { ReadsAs (λ v. v)
                (IsKeyIdentifier (here rest_of cons.old).mode octet_string_tag)
                (here rest_of cons.old) result (here rest_of cons.new) }
        { KeyIdentifier::take_from(alloc, cons) },
    )
}

// Puts the identifier of the issuer's key.
pub(crate) fn put_authority_key_identifier(
    slot: &mut Option<KeyIdentifier>,
    alloc: Global,
    extension: Extension,
) -> Result<(), ExtensionError>
    ensures ok { OnOk result
        (Fills MustNot IsAuthorityKeyIdentifier (extension_value extension) slot.old slot.new) }
    ensures refused { IfErr result
        (CannotFill MustNot IsAuthorityKeyIdentifier (extension_value extension) slot.old) }
    ensures same { OnErr result (slot.new ≡ slot.old) }
{
    put_once(
        slot,
        Need::MustNot,
        extension,
        |cons|
            ensures { ReadsAs (λ v. v) (IsAuthority (here rest_of cons.old).mode)
                (here rest_of cons.old) result (here rest_of cons.new) }
        { take_authority_key_identifier(alloc, cons) },
    )
}

// Puts the key usage.
pub(crate) fn put_key_usage(
    slot: &mut Option<KeyUsage>,
    alloc: Global,
    extension: Extension,
) -> Result<(), ExtensionError>
    ensures ok { OnOk result
        (Fills Must IsKeyUsage (extension_value extension) slot.old slot.new) }
    ensures refused { IfErr result
        (CannotFill Must IsKeyUsage (extension_value extension) slot.old) }
    ensures same { OnErr result (slot.new ≡ slot.old) }
{
    put_once(
        slot,
        Need::Must,
        extension,
        |cons|
            ensures { ReadsAs (λ u. u) (IsUsage (here rest_of cons.old).mode)
                (here rest_of cons.old) result (here rest_of cons.new) }
        { take_key_usage(alloc, cons) },
    )
}

// Puts the extended key usage.
pub(crate) fn put_extended_key_usage(
    slot: &mut Option<ExtendedKeyUsage>,
    alloc: Global,
    extension: Extension,
) -> Result<(), ExtensionError>
    ensures ok { OnOk result
        (Fills MustNot IsExtendedKeyUsage (extension_value extension) slot.old slot.new) }
    ensures refused { IfErr result
        (CannotFill MustNot IsExtendedKeyUsage (extension_value extension) slot.old) }
    ensures same { OnErr result (slot.new ≡ slot.old) }
{
    put_once(
        slot,
        Need::MustNot,
        extension,
        |cons|
            ensures { ReadsAs (λ u. u) IsExtendedKeyUsage
                (here rest_of cons.old) result (here rest_of cons.new) }
        { ExtendedKeyUsage::take_from(alloc, cons) },
    )
}

// Puts the URI of the revocation list.
pub(crate) fn put_crl_distribution(
    slot: &mut Option<Rsync>,
    alloc: Global,
    extension: Extension,
) -> Result<(), ExtensionError>
    ensures ok { OnOk result
        (Fills MustNot IsCrlDistribution (extension_value extension) slot.old slot.new) }
    ensures refused { IfErr result
        (CannotFill MustNot IsCrlDistribution (extension_value extension) slot.old) }
    ensures same { OnErr result (slot.new ≡ slot.old) }
{
    put_once(
        slot,
        Need::MustNot,
        extension,
        |cons|
            ensures { ReadsAs (λ uri. uri) (IsDistribution (here rest_of cons.old).mode)
                (here rest_of cons.old) result (here rest_of cons.new) }
        { take_crl_distribution(alloc, cons) },
    )
}

// Puts the URI of the issuer's certificate.
pub(crate) fn put_authority_access(
    slot: &mut Option<Rsync>,
    alloc: Global,
    extension: Extension,
) -> Result<(), ExtensionError>
    ensures ok { OnOk result
        (Fills MustNot IsAuthorityAccess (extension_value extension) slot.old slot.new) }
    ensures refused { IfErr result
        (CannotFill MustNot IsAuthorityAccess (extension_value extension) slot.old) }
    ensures same { OnErr result (slot.new ≡ slot.old) }
{
    put_once(
        slot,
        Need::MustNot,
        extension,
        |cons|
            ensures { ReadsAs (λ uri. uri) (AccessIssuer (here rest_of cons.old).mode)
                (here rest_of cons.old) result (here rest_of cons.new) }
        { take_authority_access(alloc, cons) },
    )
}

// Puts where the subject publishes.
pub(crate) fn put_subject_access(
    slot: &mut Option<SubjectAccess>,
    alloc: Global,
    extension: Extension,
) -> Result<(), ExtensionError>
    ensures ok { OnOk result
        (Fills MustNot IsSubjectAccess (extension_value extension) slot.old slot.new) }
    ensures refused { IfErr result
        (CannotFill MustNot IsSubjectAccess (extension_value extension) slot.old) }
    ensures same { OnErr result (slot.new ≡ slot.old) }
{
    put_once(
        slot,
        Need::MustNot,
        extension,
        |cons|
            ensures { ReadsAs (λ a. a) (names.IsSubjectAccess (here rest_of cons.old).mode)
                (here rest_of cons.old) result (here rest_of cons.new) }
        { take_subject_access(alloc, cons) },
    )
}

// Puts the policy.
pub(crate) fn put_policies(
    slot: &mut Option<Overclaim>,
    alloc: Global,
    extension: Extension,
) -> Result<(), ExtensionError>
    ensures ok { OnOk result
        (Fills Must IsPolicies (extension_value extension) slot.old slot.new) }
    ensures refused { IfErr result
        (CannotFill Must IsPolicies (extension_value extension) slot.old) }
    ensures same { OnErr result (slot.new ≡ slot.old) }
{
    put_once(
        slot,
        Need::Must,
        extension,
        |cons|
            ensures { ReadsAs (λ p. p) IsPolicies
                (here rest_of cons.old) result (here rest_of cons.new) }
        { take_policies(alloc, cons) },
    )
}

// IP resources under a policy.
fn take_ip<S: Source>(
    policy: Overclaim,
    alloc: Global,
    cons: &mut Constructed<S>,
) -> Result<(Overclaim, IpFamilies), DecodeError<S::Error>>
    ensures { ReadsAs (λ x. x) (Under policy (AreFamilies (here S.rest cons.old).mode))
        (here S.rest cons.old) result (here S.rest cons.new) }
{
    let read = IpResources::take_families_from(alloc, cons)?;
    Ok((policy, read))
}

// Puts IP resources under a policy.
pub(crate) fn put_ip(
    slot: &mut Option<(Overclaim, IpFamilies)>,
    policy: Overclaim,
    alloc: Global,
    extension: Extension,
) -> Result<(), ExtensionError>
    ensures ok { OnOk result (Fills May (Under policy (AreFamilies Der))
        (extension_value extension) slot.old slot.new) }
    ensures refused { IfErr result
        (CannotFill May (Under policy (AreFamilies Der)) (extension_value extension) slot.old) }
    ensures same { OnErr result (slot.new ≡ slot.old) }
{
    put_once(
        slot,
        Need::May,
        extension,
        |cons|
            ensures { ReadsAs (λ x. x) (Under policy (AreFamilies (here rest_of cons.old).mode))
                (here rest_of cons.old) result (here rest_of cons.new) }
        { take_ip(policy, alloc, cons) },
    )
}

// AS resources under a policy.
fn take_asn<S: Source>(
    policy: Overclaim,
    alloc: Global,
    cons: &mut Constructed<S>,
) -> Result<(Overclaim, AsResources), DecodeError<S::Error>>
    ensures { ReadsAs (λ x. x) (Under policy IsAsResources)
        (here S.rest cons.old) result (here S.rest cons.new) }
{
    let read = AsResources::take_from(alloc, cons)?;
    Ok((policy, read))
}

// Puts AS resources under a policy.
pub(crate) fn put_asn(
    slot: &mut Option<(Overclaim, AsResources)>,
    policy: Overclaim,
    alloc: Global,
    extension: Extension,
) -> Result<(), ExtensionError>
    ensures ok { OnOk result
        (Fills May (Under policy IsAsResources) (extension_value extension) slot.old slot.new) }
    ensures refused { IfErr result
        (CannotFill May (Under policy IsAsResources) (extension_value extension) slot.old) }
    ensures same { OnErr result (slot.new ≡ slot.old) }
{
    put_once(
        slot,
        Need::May,
        extension,
        |cons|
            ensures { ReadsAs (λ x. x) (Under policy IsAsResources)
                (here rest_of cons.old) result (here rest_of cons.new) }
        { take_asn(policy, alloc, cons) },
    )
}
