//! Certificates as far as paths know them.

ghost use Rattle.std.specs.Prelude.{◌≡◌, ◌↔◌, true, IsTrue};
ghost use Rattle.objects_rta_valid.specs.Nodes.{lent_octets};

use std::marker::Model;

/// The key identifiers of a certificate, and whether it is an authority's (RFC 6487 4.8.1 to 4.8.3), lent from it. Contracts
/// see the octets.
#[derive(Debug, Drop)]
pub struct NodeKeys<'a> {
    subject: &'a [u8],
    authority: Option<&'a [u8]>,
    issues: bool,
}

impl<'a> Model for NodeKeys<'a> {
    ghost use Rattle.objects_rta_valid.specs.Nodes.{Node, lent_octets};

    ghost Value = { Node };

    ghost view = { λ n. record {
      subject = n.subject.now;
      authority = lent_octets n.authority;
      issues = n.issues;
    } };
}

impl<'a> NodeKeys<'a> {
    /// A certificate with that subject key identifier and authority key identifier, if it has one; whether it is an
    /// authority's.
    pub fn new(subject: &'a [u8], authority: Option<&'a [u8]>, issues: bool) -> Self
        ensures { result ≡ record {
          subject = subject.now;
          authority = lent_octets authority.entry;
          issues = issues;
        } }
    {
        NodeKeys {
            subject,
            authority,
            issues,
        }
    }

    /// The subject key identifier.
    pub fn subject(&self) -> &'a [u8]
        ensures { result.now ≡ self.now.subject }
    {
        self.subject
    }

    /// The authority key identifier, if there is one.
    pub fn authority(&self) -> Option<&'a [u8]>
        ensures { lent_octets result ≡ self.now.authority }
    {
        self.authority
    }

    /// Whether it is an authority's certificate.
    pub fn issues(&self) -> bool
        ensures { IsTrue result ↔ (self.now.issues ≡ true) }
    {
        self.issues
    }
}
