//! Laws of certificates that are built: the contracts of functions that do nothing.

ghost use Rattle.certs.specs.Laws.{BuiltIsRead, BuiltIsSpelled, FieldsAreRead, FieldsStay, OctetsAreOneCert, ReadIsBuilt, ReadIsReadable};

use certs_extension::forms::laws::cert_is_spelled;
use certs_key::laws::padded_keys_stay;
use resources_as::laws::what_is_written_means_just_these;
use resources_ip::laws::{
    choices_that_are_read_fit, families_are_read_again, families_that_are_read_fit,
};

/// What is written of a certificate's fields is read again as these fields, and what is written of the certificate that
/// is built of them as one that has them: where some kind of resources is there, and IPv4 resources are over whole
/// addresses (RFC 6487 4.8.10, 4.8.11; RFC 3779 2.2.3). Key and signature are the same but for their unused bits, which
/// are zero in DER (X.690 11.2.1): where the key's are, as those of a signer's keys and of each key that is read in DER,
/// all fields are the same, and where the signature's are, and what was signed stands in DER, so is the certificate.
pub fn what_is_built_is_read()
    ensures fields { FieldsAreRead }
    ensures cert { BuiltIsRead }
    ensures spelled { BuiltIsSpelled }
    ensures same { ReadIsBuilt }
    ensures stay { FieldsStay }
{
    padded_keys_stay();
    cert_is_spelled();
    families_are_read_again();
    what_is_written_means_just_these();
}

/// The fields of a certificate that is read meet the condition under which what is written of them is read again: some kind
/// of resources is there, and IPv4 resources are over whole addresses. They are read as the same fields, since the unused
/// bits of its key are zero.
pub fn what_is_read_is_readable()
    ensures { ReadIsReadable }
{
    families_that_are_read_fit();
    choices_that_are_read_fit();
}

/// Octets are one certificate at most; so what is read of a built certificate is that certificate and no other.
pub fn octets_are_one_cert()
    ensures { OctetsAreOneCert }
{}
