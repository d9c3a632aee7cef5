//! Where revocation lists, the issuer's certificate and what the subject publishes are found (RFC
//! 6487 4.8.6 to 4.8.8, RFC 8182 3.2).

ghost use Rattle.std.specs.Prelude.{◌≡◌, option_copied};

use crate::tbs::TbsCert;
use certs_extension::access::{Https, Rsync};

impl TbsCert {
    /// The URI of the revocation list on which the certificate would be, if there is one (RFC 6487
    /// 4.8.6).
    pub fn crl_uri(&self) -> Option<&Rsync>
        ensures { option_copied result ≡ self.now.crl_uri }
    {
        self.crl_uri.as_ref()
    }

    /// Sets the URI of the revocation list.
    pub fn set_crl_uri(&mut self, uri: Option<Rsync>)
        ensures { self.new ≡ record self.old { crl_uri = uri } }
    {
        self.crl_uri = uri;
    }

    /// The URI of the issuer's certificate, if there is one (RFC 6487 4.8.7).
    pub fn ca_issuer(&self) -> Option<&Rsync>
        ensures { option_copied result ≡ self.now.ca_issuer }
    {
        self.ca_issuer.as_ref()
    }

    /// Sets the URI of the issuer's certificate.
    pub fn set_ca_issuer(&mut self, uri: Option<Rsync>)
        ensures { self.new ≡ record self.old { ca_issuer = uri } }
    {
        self.ca_issuer = uri;
    }

    /// The URI of the folder in which the subject publishes, if there is one (RFC 6487 4.8.8.1).
    pub fn ca_repository(&self) -> Option<&Rsync>
        ensures { option_copied result ≡ self.now.access.repository }
    {
        self.ca_repository.as_ref()
    }

    /// Sets the URI of the folder in which the subject publishes.
    pub fn set_ca_repository(&mut self, uri: Option<Rsync>)
        ensures { self.new ≡ record self.old {
          access = record self.old.access { repository = uri };
        } }
    {
        self.ca_repository = uri;
    }

    /// The URI of the subject's manifest, if there is one (RFC 6487 4.8.8.1).
    pub fn rpki_manifest(&self) -> Option<&Rsync>
        ensures { option_copied result ≡ self.now.access.manifest }
    {
        self.rpki_manifest.as_ref()
    }

    /// Sets the URI of the subject's manifest.
    pub fn set_rpki_manifest(&mut self, uri: Option<Rsync>)
        ensures { self.new ≡ record self.old {
          access = record self.old.access { manifest = uri };
        } }
    {
        self.rpki_manifest = uri;
    }

    /// The URI of the object that the key signs, if there is one (RFC 6487 4.8.8.2).
    pub fn signed_object(&self) -> Option<&Rsync>
        ensures { option_copied result ≡ self.now.access.object }
    {
        self.signed_object.as_ref()
    }

    /// Sets the URI of the object that the key signs.
    pub fn set_signed_object(&mut self, uri: Option<Rsync>)
        ensures { self.new ≡ record self.old {
          access = record self.old.access { object = uri };
        } }
    {
        self.signed_object = uri;
    }

    /// The URI of the subject's notification file, if there is one (RFC 8182 3.2).
    pub fn rpki_notify(&self) -> Option<&Https>
        ensures { option_copied result ≡ self.now.access.notify }
    {
        self.rpki_notify.as_ref()
    }

    /// Sets the URI of the subject's notification file.
    pub fn set_rpki_notify(&mut self, uri: Option<Https>)
        ensures { self.new ≡ record self.old {
          access = record self.old.access { notify = uri };
        } }
    {
        self.rpki_notify = uri;
    }
}
