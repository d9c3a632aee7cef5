//! The tests of each role in their order, and what passes each.

ghost use Rattle.std.specs.Prelude.{◌≡◌, ◌↔◌, IsTrue};
ghost use Rattle.certs_verify.specs.certs_key.Digesting.{digests_of};
ghost use Rattle.certs_cert.specs.certs_extension.Profiles.{Passes, tests as tests_of};

use crate::inspect::{access, claims, identity, usages};
use certs_cert::{Cert, Digester, InspectionError, Role};

// The tests of a trust anchor.
const OF_ANCHOR: &[InspectionError] = &[
    InspectionError::AlgorithmMismatch,
    InspectionError::BadIssuer,
    InspectionError::BadSubject,
    InspectionError::KeyAlgorithm,
    InspectionError::KeyIdMismatch,
    InspectionError::ExtendedKeyUsagePresent,
    InspectionError::BasicConstraintsMissing,
    InspectionError::NotCa,
    InspectionError::WrongKeyUsage,
    InspectionError::RepositoryMissing,
    InspectionError::ManifestMissing,
    InspectionError::ManifestNotChild,
    InspectionError::SignedObjectPresent,
    InspectionError::AuthorityKeyMismatch,
    InspectionError::CrlPresent,
    InspectionError::AiaPresent,
];

// The tests of another authority.
const OF_AUTHORITY: &[InspectionError] = &[
    InspectionError::AlgorithmMismatch,
    InspectionError::BadIssuer,
    InspectionError::BadSubject,
    InspectionError::KeyAlgorithm,
    InspectionError::KeyIdMismatch,
    InspectionError::ExtendedKeyUsagePresent,
    InspectionError::BasicConstraintsMissing,
    InspectionError::NotCa,
    InspectionError::WrongKeyUsage,
    InspectionError::RepositoryMissing,
    InspectionError::ManifestMissing,
    InspectionError::ManifestNotChild,
    InspectionError::SignedObjectPresent,
    InspectionError::CrlMissing,
];

// The tests of the certificate in a published object.
const OF_SIGNER: &[InspectionError] = &[
    InspectionError::AlgorithmMismatch,
    InspectionError::BadIssuer,
    InspectionError::BadSubject,
    InspectionError::KeyAlgorithm,
    InspectionError::KeyIdMismatch,
    InspectionError::ExtendedKeyUsagePresent,
    InspectionError::CrlMissing,
    InspectionError::BasicConstraintsPresent,
    InspectionError::WrongKeyUsage,
    InspectionError::RepositoryPresent,
    InspectionError::ManifestPresent,
    InspectionError::SignedObjectMissing,
];

// The tests of the certificate of an object that stands apart.
const OF_DETACHED_SIGNER: &[InspectionError] = &[
    InspectionError::AlgorithmMismatch,
    InspectionError::BadIssuer,
    InspectionError::BadSubject,
    InspectionError::KeyAlgorithm,
    InspectionError::KeyIdMismatch,
    InspectionError::ExtendedKeyUsagePresent,
    InspectionError::CrlMissing,
    InspectionError::BasicConstraintsPresent,
    InspectionError::WrongKeyUsage,
    InspectionError::RepositoryPresent,
    InspectionError::ManifestPresent,
];

// The tests of a router's certificate.
const OF_ROUTER: &[InspectionError] = &[
    InspectionError::AlgorithmMismatch,
    InspectionError::BadIssuer,
    InspectionError::BadSubject,
    InspectionError::KeyAlgorithm,
    InspectionError::BasicConstraintsPresent,
    InspectionError::KeyIdMismatch,
    InspectionError::WrongKeyUsage,
    InspectionError::ExtendedKeyUsageMissing,
    InspectionError::NotRouterUsage,
    InspectionError::CrlMissing,
    InspectionError::SiaPresent,
    InspectionError::IpResourcesPresent,
    InspectionError::AsResourcesMissing,
    InspectionError::AsResourcesInherited,
];

/// The tests of a role, in their order.
pub(crate) fn tests(role: Role) -> &'static [InspectionError]
    ensures { result.now ≡ tests_of role }
{
    match role {
        Role::Ta => OF_ANCHOR,
        Role::Ca => OF_AUTHORITY,
        Role::Ee => OF_SIGNER,
        Role::DetachedEe => OF_DETACHED_SIGNER,
        Role::Router => OF_ROUTER,
    }
}

/// Whether the certificate passes the test, as one of that role.
pub(crate) fn passes<D: Digester>(
    cert: &Cert,
    role: Role,
    strict: bool,
    digester: &D,
    test: InspectionError,
) -> bool
    ensures { IsTrue result ↔ Passes (digests_of D.sha256_digest D.sha1_digest digester.now)
        strict role cert.now test }
{
    match test {
        InspectionError::AlgorithmMismatch => identity::has_one_algorithm(cert),
        InspectionError::BadIssuer => identity::has_issuer(cert, strict),
        InspectionError::BadSubject => identity::has_subject(cert, role, strict),
        InspectionError::KeyAlgorithm => identity::has_key(cert, role),
        InspectionError::KeyIdMismatch => identity::has_own_identifier(cert, digester),
        InspectionError::AuthorityKeyMismatch => cert.tbs().is_self_signed(),
        InspectionError::ExtendedKeyUsagePresent => !usages::has_purposes(cert),
        InspectionError::ExtendedKeyUsageMissing => usages::has_purposes(cert),
        InspectionError::NotRouterUsage => usages::is_for_routers(cert),
        InspectionError::CrlMissing => access::has_crl(cert),
        InspectionError::CrlPresent => !access::has_crl(cert),
        InspectionError::AiaPresent => !access::has_issuer_uri(cert),
        InspectionError::BasicConstraintsPresent => !usages::has_constraints(cert),
        InspectionError::BasicConstraintsMissing => usages::has_constraints(cert),
        InspectionError::NotCa => cert.tbs().is_ca(),
        InspectionError::WrongKeyUsage => usages::has_usage(cert, role),
        InspectionError::RepositoryMissing => access::has_repository(cert),
        InspectionError::RepositoryPresent => !access::has_repository(cert),
        InspectionError::ManifestMissing => access::has_manifest(cert),
        InspectionError::ManifestPresent => !access::has_manifest(cert),
        InspectionError::ManifestNotChild => access::has_manifest_inside(cert),
        InspectionError::SignedObjectMissing => access::has_object(cert),
        InspectionError::SignedObjectPresent => !access::has_object(cert),
        InspectionError::SiaPresent => access::has_no_access(cert),
        InspectionError::IpResourcesPresent => claims::has_no_addresses(cert),
        InspectionError::AsResourcesMissing => claims::has_numbers(cert),
        InspectionError::AsResourcesInherited => claims::has_own_numbers(cert),
    }
}
