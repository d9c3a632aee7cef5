//! Which issuer a revocation list claims (RFC 6487 5).

ghost use Rattle.std.specs.Prelude.{◌≡◌, ◌↔◌, IfErr, IsOk};
ghost use Rattle.certs_x509.specs.declared.errors.verification.VerificationError.TheVariants.{AuthorityKeyMismatch};

use crate::crl::Crl;
use certs_cert::Cert;
use certs_x509::errors::VerificationError;

impl Crl {
    /// Whether that issuer is claimed: the list's authority key identifier is the issuer's subject key identifier
    /// (RFC 5280 5.2.1). Names aren't compared, and the signature isn't verified.
    pub fn verify_issuer_claim(&self, issuer: &Cert) -> Result<(), VerificationError>
        ensures ok { IsOk result ↔ (self.now.tbs.authority_key_identifier
            ≡ issuer.now.tbs.subject_key_identifier) }
        ensures error { IfErr result (λ e. e ≡ AuthorityKeyMismatch) }
    {
        let claimed = *self.as_cert_list().authority_key_identifier();
        if claimed == issuer.tbs().subject_key_identifier() {
            return Ok(());
        }
        Err(VerificationError::AuthorityKeyMismatch)
    }
}
