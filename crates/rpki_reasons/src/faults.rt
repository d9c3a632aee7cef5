//! What is wrong, by the tests that certificates, objects and locators share: a word that stays, for programs, and words for
//! people.

ghost use Rattle.std.specs.Prelude.{◌≡◌};
ghost use Rattle.rpki_reasons.specs.Faults.{cert_fault as fault_of_cert, content_fault as fault_of_content, either as either_of, issue_fault as fault_of_issue, revocation_fault as fault_of_revocation, text_fault as fault_of_text};

use crate::forms::form_fault;
use objects_payload::locator::ReadError;
use rpki_rules::reason::{CertTest, ContentTest, RevocationTest, VerificationTest};

/// The first for programs, the second for people.
pub(crate) fn either(json: bool, word: &'static str, words: &'static str) -> &'static str
    ensures { result.now ≡ either_of json word.now words.now }
{
    if json { word } else { words }
}

/// What is wrong with a locator's text.
pub(crate) fn text_fault(json: bool, error: ReadError) -> &'static str
    ensures { result.now ≡ fault_of_text json error }
{
    match error {
        ReadError::Io => either(json, "io", "the text can't be read to its end"),
        ReadError::UnexpectedEof => either(json, "unexpected-eof", "unexpected end of file"),
        ReadError::BadUri => either(json, "bad-uri", "bad trust anchor URI"),
        ReadError::BadKeyInfoEncoding => {
            either(json, "bad-key-info-encoding", "bad key info encoding")
        }
        ReadError::BadKeyInfo => either(json, "bad-key-info", "bad key info"),
        ReadError::Memory => either(json, "memory", "out of memory"),
    }
}

// What is wrong with a certificate by what its issuer and the moment say.
fn issue_fault(json: bool, test: VerificationTest) -> &'static str
    ensures { result.now ≡ fault_of_issue json test }
{
    match test {
        VerificationTest::NotYetValid => either(json, "not-yet-valid", "not yet valid"),
        VerificationTest::Expired => either(json, "expired", "expired"),
        VerificationTest::AuthorityKeyMissing => either(
            json,
            "authority-key-missing",
            "missing authority key identifier",
        ),
        VerificationTest::AuthorityKeyMismatch => either(
            json,
            "authority-key-mismatch",
            "authority key identifier of another key",
        ),
        VerificationTest::AiaMissing => either(json, "aia-missing", "missing URI of the issuer"),
        VerificationTest::BadSignature => either(json, "bad-signature", "bad signature"),
        VerificationTest::InheritedV4 => {
            either(json, "inherited-ipv4", "inherited IPv4 addresses")
        }
        VerificationTest::InheritedV6 => {
            either(json, "inherited-ipv6", "inherited IPv6 addresses")
        }
        VerificationTest::InheritedAs => either(json, "inherited-as", "inherited AS numbers"),
        VerificationTest::OverclaimV4 => {
            either(json, "overclaim-ipv4", "overclaimed IPv4 addresses")
        }
        VerificationTest::OverclaimV6 => {
            either(json, "overclaim-ipv6", "overclaimed IPv6 addresses")
        }
        VerificationTest::OverclaimAs => either(json, "overclaim-as", "overclaimed AS numbers"),
    }
}

/// What is wrong with a certificate.
pub(crate) fn cert_fault(json: bool, test: CertTest) -> &'static str
    ensures { result.now ≡ fault_of_cert json test }
{
    match test {
        CertTest::Inspection(error) => form_fault(json, error),
        CertTest::Verification(test) => issue_fault(json, test),
    }
}

/// What is wrong with a signed content.
pub(crate) fn content_fault(json: bool, test: ContentTest) -> &'static str
    ensures { result.now ≡ fault_of_content json test }
{
    match test {
        ContentTest::Digest => either(json, "message-digest", "message digest of another content"),
        ContentTest::SigningTime => {
            either(json, "signing-time", "signed after the certificate expired")
        }
        ContentTest::Signature => either(json, "bad-signature", "bad signature"),
    }
}

/// What is wrong with what says whether a certificate is revoked.
pub(crate) fn revocation_fault(json: bool, test: RevocationTest) -> &'static str
    ensures { result.now ≡ fault_of_revocation json test }
{
    match test {
        RevocationTest::NamesList => either(json, "list-unnamed", "names no revocation list"),
        RevocationTest::SameList => either(json, "other-list", "names another revocation list"),
        RevocationTest::NotRevoked => either(json, "revoked", "revoked"),
    }
}
