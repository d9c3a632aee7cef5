//! What the key of a certificate is for (RFC 6487 4.8.1, 4.8.4, 4.8.5).

ghost use Rattle.std.specs.Prelude.{◌≡◌, ◌↔◌, IsTrue, Some, true, option_copied};

use crate::tbs::TbsCert;
use certs_extension::ExtendedKeyUsage;
use certs_extension::forms::KeyUsage;

impl TbsCert {
    /// Whether basic constraints say that the subject is an authority; none where there are no
    /// basic constraints (RFC 6487 4.8.1).
    pub fn basic_ca(&self) -> Option<bool>
        ensures { result ≡ self.now.basic_ca }
    {
        self.basic_ca
    }

    /// Sets what basic constraints say.
    pub fn set_basic_ca(&mut self, ca: Option<bool>)
        ensures { self.new ≡ record self.old { basic_ca = ca } }
    {
        self.basic_ca = ca;
    }

    /// Whether the certificate is of an authority, if it is valid: basic constraints are there and
    /// say so.
    pub fn is_ca(&self) -> bool
        ensures { IsTrue result ↔ (self.now.basic_ca ≡ Some true) }
    {
        self.basic_ca.unwrap_or(false)
    }

    /// What the key is for (RFC 6487 4.8.4).
    pub fn key_usage(&self) -> KeyUsage
        ensures { result ≡ self.now.key_usage }
    {
        self.key_usage
    }

    /// Sets what the key is for.
    pub fn set_key_usage(&mut self, key_usage: KeyUsage)
        ensures { self.new ≡ record self.old { key_usage = key_usage } }
    {
        self.key_usage = key_usage;
    }

    /// What else the key is for, if that is stated (RFC 6487 4.8.5).
    pub fn extended_key_usage(&self) -> Option<&ExtendedKeyUsage>
        ensures { option_copied result ≡ self.now.extended_key_usage }
    {
        self.extended_key_usage.as_ref()
    }

    /// Sets what else the key is for.
    pub fn set_extended_key_usage(&mut self, extended_key_usage: Option<ExtendedKeyUsage>)
        ensures { self.new ≡ record self.old { extended_key_usage = extended_key_usage } }
    {
        self.extended_key_usage = extended_key_usage;
    }
}
