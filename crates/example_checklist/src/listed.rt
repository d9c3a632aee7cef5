//! Whether a file is one that an accepted checklist lists (RFC 9323).

ghost use Rattle.std.specs.Prelude.{◌↔◌, IfErr, IfOk, IsTrue};
ghost use Rattle.std.specs.Fn.{FnOnceReturnsAt};
ghost use Rattle.sha2.specs.Sha256.{sha256 as sha256_of};
ghost use Rattle.example_checklist.specs.Listed.{IsAccepted, IsRefused, Lists};

use certs::cert::{Cert, ResourceCert};
use certs::x509::{Digester, Time, ValidationError, Verifier};
use objects::rsc::{ResourceSignedChecklist, Rsc};
use rpki_digests::Fips;
use std::alloc::Global;

/// How a checklist is accepted: below which issuer, at which moment, and by whose verdicts on signatures.
#[derive(Drop)]
pub struct Terms<'a, V: Verifier> {
    pub issuer: &'a ResourceCert,
    pub moment: Time,
    pub verifier: &'a mut V,
}

/// A file that is checked: its name, and its octets.
#[derive(Clone, Copy)]
pub struct File<'a> {
    pub name: &'a [u8],
    pub octets: &'a [u8],
}

// Whether a file of that name, with that digest, is listed.
fn is_listed(checklist: &ResourceSignedChecklist, name: &[u8], digest: &[u8]) -> bool
    ensures { IsTrue result ↔ Lists checklist.now.files name.now digest.now }
{
    for file in checklist.iter() {
        if file.file_name() == Some(name) && file.hash() == digest {
            return true;
        }
    }
    false
}

/// Whether a checklist lists the file, by its name and the SHA-256 digest of its octets, where the checklist is accepted by the
/// terms; else the first test that it fails. `check_crl` is asked whether the checklist's certificate is
/// revoked, after all that is asked of the object and of its certificate (RFC 9323 5).
pub fn is_checked<V: Verifier, F: FnOnce(&Cert) -> Result<(), ValidationError> + Drop>(
    alloc: Global,
    rsc: Rsc,
    terms: &mut Terms<'_, V>,
    check_crl: F,
    file: File<'_>,
) -> Result<bool, ValidationError>
    requires { F.IsAlwaysCallable check_crl }
    ensures accepted { IfOk result (λ yes.
        IsAccepted (FnOnceReturnsAt F.FnOnce check_crl rsc.signed.cert)
        (V.says terms.old.verifier.now) terms.old.moment terms.old.issuer.now.holder rsc) }
    ensures listed { IfOk result (λ yes. IsTrue yes
        ↔ Lists rsc.content.files file.entry.name.now (sha256_of file.entry.octets.now)) }
    ensures refused { IfErr result (
        IsRefused (FnOnceReturnsAt F.FnOnce check_crl rsc.signed.cert)
        (V.says terms.old.verifier.now) terms.old.moment terms.old.issuer.now.holder rsc) }
{
    let (issuer, moment) = (terms.issuer, terms.moment);
    match rsc.process_at(
        alloc,
        issuer,
        true,
        moment,
        &Fips,
        terms.verifier,
        check_crl,
    ) {
        Ok((_holder, checklist)) => {
            let digest = Fips.sha256(file.octets);
            Ok(is_listed(&checklist, file.name, &digest))
        }
        Err(error) => Err(error),
    }
}
