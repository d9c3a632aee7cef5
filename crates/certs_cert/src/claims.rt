//! The resources of a certificate (RFC 6487 4.8.9 to 4.8.11, RFC 3779).

ghost use Rattle.std.specs.Prelude.{◌≡◌, ◌≢◌, ◌↔◌, ◌⊎◌, IsTrue};
ghost use Rattle.certs_cert.specs.resources_chain.declared.choice.ResourcesChoice.TheVariants.{Missing, Inherit};

use crate::tbs::TbsCert;
use certs_extension::forms::{AsResources, IpResources, Overclaim};

impl TbsCert {
    /// What becomes of numbers that the issuer doesn't hold (RFC 8360 4.2.1).
    pub fn overclaim(&self) -> Overclaim
        ensures { result ≡ self.now.overclaim }
    {
        self.overclaim
    }

    /// Sets what becomes of numbers that the issuer doesn't hold.
    pub fn set_overclaim(&mut self, overclaim: Overclaim)
        ensures { self.new ≡ record self.old { overclaim = overclaim } }
    {
        self.overclaim = overclaim;
    }

    /// The IPv4 resources (RFC 3779 2.2.3).
    pub fn v4_resources(&self) -> &IpResources
        ensures { result.now ≡ self.now.v4 }
    {
        &self.v4_resources
    }

    /// Sets the IPv4 resources.
    pub fn set_v4_resources(&mut self, resources: IpResources)
        ensures { self.new ≡ record self.old { v4 = resources } }
    {
        self.v4_resources = resources;
    }

    /// Sets the IPv4 resources to the issuer's (RFC 3779 2.2.3.5).
    pub fn set_v4_resources_inherit(&mut self)
        ensures { self.new ≡ record self.old { v4 = Inherit } }
    {
        self.v4_resources = IpResources::inherit();
    }

    /// The IPv6 resources (RFC 3779 2.2.3).
    pub fn v6_resources(&self) -> &IpResources
        ensures { result.now ≡ self.now.v6 }
    {
        &self.v6_resources
    }

    /// Sets the IPv6 resources.
    pub fn set_v6_resources(&mut self, resources: IpResources)
        ensures { self.new ≡ record self.old { v6 = resources } }
    {
        self.v6_resources = resources;
    }

    /// Sets the IPv6 resources to the issuer's (RFC 3779 2.2.3.5).
    pub fn set_v6_resources_inherit(&mut self)
        ensures { self.new ≡ record self.old { v6 = Inherit } }
    {
        self.v6_resources = IpResources::inherit();
    }

    /// Whether there are IP resources: of one family at least some are listed or inherited.
    pub fn has_ip_resources(&self) -> bool
        ensures { IsTrue result ↔ ((self.now.v4 ≢ Missing) ⊎ (self.now.v6 ≢ Missing)) }
    {
        self.v4_resources.is_present() || self.v6_resources.is_present()
    }

    /// The AS resources (RFC 3779 3.2.3).
    pub fn as_resources(&self) -> &AsResources
        ensures { result.now ≡ self.now.asn }
    {
        &self.as_resources
    }

    /// Sets the AS resources.
    pub fn set_as_resources(&mut self, resources: AsResources)
        ensures { self.new ≡ record self.old { asn = resources } }
    {
        self.as_resources = resources;
    }

    /// Sets the AS resources to the issuer's (RFC 3779 3.2.3.3).
    pub fn set_as_resources_inherit(&mut self)
        ensures { self.new ≡ record self.old { asn = Inherit } }
    {
        self.as_resources = AsResources::inherit();
    }
}
