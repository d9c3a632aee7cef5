//! The tests after the list of extensions.

ghost use Rattle.std.specs.Prelude.{◌≡◌, ◌↔◌, IfErr, IfOk, IsTrue, None, OnErr};
ghost use Rattle.certs_extension.specs.resources_chain.declared.choice.ResourcesChoice.TheVariants.{Missing};
ghost use Rattle.certs_extension.specs.Finishing.{Finishes, HasClaims, HasSome, IsListFault, IsUnder, Stands, access_of, no_families};
ghost use Rattle.certs_extension.specs.Needed.{HasNeeded};
ghost use Rattle.certs_extension.specs.declared.claims.finish.Claims.{Claims as ClaimsValue};

use crate::access::{Rsync, SubjectAccess};
use crate::claims::slots::Slots;
use crate::forms::{AsResources, IpFamilies, IpResources, KeyUsage, Overclaim};
use crate::{ExtendedKeyUsage, ExtensionError, KeyIdentifier};

/// What the extensions of a certificate claim.
#[derive(Drop)]
pub struct Claims {
    /// Whether the subject is an authority (RFC 6487 4.8.1).
    pub basic_ca: Option<bool>,
    /// The identifier of the subject's key (4.8.2).
    pub subject_key_identifier: KeyIdentifier,
    /// The identifier of the issuer's key (4.8.3).
    pub authority_key_identifier: Option<KeyIdentifier>,
    /// What the subject's key is for (4.8.4).
    pub key_usage: KeyUsage,
    /// What else it is for (4.8.5).
    pub extended_key_usage: Option<ExtendedKeyUsage>,
    /// Where the revocation list is found (4.8.6).
    pub crl_uri: Option<Rsync>,
    /// Where the issuer's certificate is found (4.8.7).
    pub ca_issuer: Option<Rsync>,
    /// Where the subject publishes (4.8.8).
    pub access: SubjectAccess,
    /// The policy under which resources are claimed (4.8.9).
    pub overclaim: Overclaim,
    /// IPv4 resources (4.8.10).
    pub v4: IpResources,
    /// IPv6 resources (4.8.10).
    pub v6: IpResources,
    /// AS resources (4.8.11).
    pub asn: AsResources,
}

// What has to be there: the policy, the identifier of the subject's key, and its usage.
type Needed = (Overclaim, KeyIdentifier, KeyUsage);

// Whether there are resources of one kind.
fn has_some(slots: &Slots) -> bool
    ensures { IsTrue result ↔ HasSome slots.now }
{
    slots.ip.is_some() || slots.asn.is_some()
}

// Whether IP resources don't stand under another policy.
fn ip_stands(policy: Overclaim, ip: &Option<(Overclaim, IpFamilies)>) -> bool
    ensures { IsTrue result ↔ Stands policy ip.now }
{
    match ip {
        None => true,
        Some((under, _)) => *under == policy,
    }
}

// Whether AS resources don't stand under another policy.
fn asn_stands(policy: Overclaim, asn: &Option<(Overclaim, AsResources)>) -> bool
    ensures { IsTrue result ↔ Stands policy asn.now }
{
    match asn {
        None => true,
        Some((under, _)) => *under == policy,
    }
}

// IP resources of both families.
fn families_of(ip: Option<(Overclaim, IpFamilies)>) -> IpFamilies
    ensures { (policy : _) → Stands policy ip → IsUnder policy no_families ip result }
{
    match ip {
        None => IpFamilies {
            v4: IpResources::missing(),
            v6: IpResources::missing(),
        },
        Some((_, families)) => families,
    }
}

// AS resources.
fn numbers_of(asn: Option<(Overclaim, AsResources)>) -> AsResources
    ensures { (policy : _) → Stands policy asn → IsUnder policy Missing asn result }
{
    match asn {
        None => AsResources::missing(),
        Some((_, numbers)) => numbers,
    }
}

// Where the subject publishes.
fn access_in(access: Option<SubjectAccess>) -> SubjectAccess
    ensures { result ≡ access_of access }
{
    match access {
        None => SubjectAccess::none(),
        Some(access) => access,
    }
}

impl Slots {
    // The policy under which all resources stand, and the first test of resources that fails.
    fn policy_of(&self) -> Result<Overclaim, ExtensionError>
        ensures ok { IfOk result (HasClaims self.now) }
        ensures refused { IfErr result (IsListFault self.now) }
    {
        if !has_some(self) {
            return Err(ExtensionError::MissingResources);
        }
        let Some(policy) = self.policy else {
            return Err(ExtensionError::MissingPolicy);
        };
        if !ip_stands(policy, &self.ip) {
            return Err(ExtensionError::WrongIpResources);
        }
        if !asn_stands(policy, &self.asn) {
            return Err(ExtensionError::WrongAsResources);
        }
        Ok(policy)
    }

    // The policy under which all resources stand, the identifier of the subject's key and its usage,
    // and else the first test of the slots that fails.
    fn needed(&self) -> Result<Needed, ExtensionError>
        ensures ok { IfOk result (HasNeeded self.now) }
        ensures refused { IfErr result (IsListFault self.now) }
    {
        let overclaim = self.policy_of()?;
        let Some(subject_key_identifier) = self.subject_key_identifier else {
            return Err(ExtensionError::MissingSubjectKeyIdentifier);
        };
        let Some(key_usage) = self.key_usage else {
            return Err(ExtensionError::MissingKeyUsage);
        };
        Ok((overclaim, subject_key_identifier, key_usage))
    }

    // What the extensions claim, of which these were found.
    fn claims(self, needed: Needed) -> Claims
        requires { HasNeeded self needed }
        ensures { Finishes self result }
    {
        let (overclaim, subject_key_identifier, key_usage) = needed;
        let IpFamilies { v4, v6 } = families_of(self.ip);
        Claims {
            basic_ca: self.basic_ca,
            subject_key_identifier,
            authority_key_identifier: self.authority_key_identifier,
            key_usage,
            extended_key_usage: self.extended_key_usage,
            crl_uri: self.crl_uri,
            ca_issuer: self.ca_issuer,
            access: access_in(self.access),
            overclaim,
            v4,
            v6,
            asn: numbers_of(self.asn),
        }
    }

    /// What the extensions claim, where the identifier of the subject's key, its key usage and a
    /// policy are there, and resources, which all stand under this policy (RFC 6487 4.8, RFC 8360 4.2).
    ///
    /// Refuses with the first failing test, in this order: `MissingResources`, `MissingPolicy`,
    /// `WrongIpResources`, `WrongAsResources`, `MissingSubjectKeyIdentifier`, `MissingKeyUsage`.
    pub fn finish(self) -> Result<Claims, ExtensionError>
        ensures ok { IfOk result (Finishes self) }
        ensures refused { IfErr result (IsListFault self) }
        ensures none { OnErr result ((c : ClaimsValue) → ¬ (Finishes self c)) }
    {
        match self.needed() {
            Ok(needed) => Ok(self.claims(needed)),
            Err(error) => {
                drop(self);
                Err(error)
            }
        }
    }
}
