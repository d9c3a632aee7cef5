//! The resources of a signed object that is put together (RFC 6487 4.8.10, 4.8.11).

ghost use Rattle.std.specs.Prelude.{◌≡◌, ◌≢◌, ◌↔◌, ◌⊎◌, [], IfOk, IsTrue, List, Ok, OnErr, OnOk};
ghost use Rattle.std.specs.Fn.{FnOnceReturnsAtMut};
ghost use Rattle.objects_written.specs.resources_chain.Choices.{IsChoiceOf};
ghost use Rattle.objects_written.specs.resources_chain.Sets.{Run};
ghost use Rattle.objects_written.specs.resources_chain.declared.choice.ResourcesChoice.TheVariants.{Blocks, Inherit, Missing};

use crate::builder::SignedObjectBuilder;
use certs_extension::{
    AsBlocksBuilder, AsResources, AsResourcesBuilder, IpBlocksBuilder, IpResources,
    IpResourcesBuilder,
};
use std::alloc::{AllocError, Global};

// The addresses that a function pushes.
fn built_addresses<F: FnOnce(&mut IpBlocksBuilder) -> Result<(), AllocError>>(
    alloc: Global,
    op: F,
) -> Result<IpResources, AllocError>
    requires { F.IsAlwaysCallable op }
    ensures { IfOk result (λ made. (pushed : List Run)
        × FnOnceReturnsAtMut F.FnOnce op [] (Ok tt) pushed × IsChoiceOf (Blocks pushed) made) }
{
    let mut builder = IpResourcesBuilder::new();
    builder.blocks(alloc, op)?;
    builder.finalize(alloc)
}

// The AS numbers that a function pushes.
fn built_numbers<F: FnOnce(&mut AsBlocksBuilder) -> Result<(), AllocError>>(
    alloc: Global,
    op: F,
) -> Result<AsResources, AllocError>
    requires { F.IsAlwaysCallable op }
    ensures { IfOk result (λ made. (pushed : List Run)
        × FnOnceReturnsAtMut F.FnOnce op [] (Ok tt) pushed × IsChoiceOf (Blocks pushed) made) }
{
    let mut builder = AsResourcesBuilder::new();
    builder.blocks(alloc, op)?;
    builder.finalize(alloc)
}

impl SignedObjectBuilder {
    /// The IPv4 resources (RFC 3779 2.2.3).
    pub fn v4_resources(&self) -> &IpResources
        ensures { result.now ≡ self.now.v4 }
    {
        &self.holdings.v4
    }

    /// Sets the IPv4 resources.
    pub fn set_v4_resources(&mut self, resources: IpResources)
        ensures { self.new ≡ record self.old { v4 = resources } }
    {
        self.holdings.v4 = resources;
    }

    /// Sets the IPv4 resources to the issuer's.
    pub fn set_v4_resources_inherit(&mut self)
        ensures { self.new ≡ record self.old { v4 = Inherit } }
    {
        self.holdings.v4 = IpResources::inherit();
    }

    /// Sets the IPv4 resources to a list: of the blocks that `op` pushes. Where `op` or a growth of memory is refused
    /// nothing changes.
    pub fn build_v4_resource_blocks<F: FnOnce(&mut IpBlocksBuilder) -> Result<(), AllocError>>(
        &mut self,
        alloc: Global,
        op: F,
    ) -> Result<(), AllocError>
        requires { F.IsAlwaysCallable op }
        ensures ok { OnOk result ((pushed : List Run)
            × FnOnceReturnsAtMut F.FnOnce op [] (Ok tt) pushed
            × IsChoiceOf (Blocks pushed) self.new.v4) }
        ensures others { self.new ≡ record self.old { v4 = self.new.v4 } }
        ensures err { OnErr result (self.new ≡ self.old) }
    {
        self.holdings.v4 = built_addresses(alloc, op)?;
        Ok(())
    }

    /// The IPv6 resources (RFC 3779 2.2.3).
    pub fn v6_resources(&self) -> &IpResources
        ensures { result.now ≡ self.now.v6 }
    {
        &self.holdings.v6
    }

    /// Sets the IPv6 resources.
    pub fn set_v6_resources(&mut self, resources: IpResources)
        ensures { self.new ≡ record self.old { v6 = resources } }
    {
        self.holdings.v6 = resources;
    }

    /// Sets the IPv6 resources to the issuer's.
    pub fn set_v6_resources_inherit(&mut self)
        ensures { self.new ≡ record self.old { v6 = Inherit } }
    {
        self.holdings.v6 = IpResources::inherit();
    }

    /// Sets the IPv6 resources to a list: of the blocks that `op` pushes. Where `op` or a growth of memory is refused
    /// nothing changes.
    pub fn build_v6_resource_blocks<F: FnOnce(&mut IpBlocksBuilder) -> Result<(), AllocError>>(
        &mut self,
        alloc: Global,
        op: F,
    ) -> Result<(), AllocError>
        requires { F.IsAlwaysCallable op }
        ensures ok { OnOk result ((pushed : List Run)
            × FnOnceReturnsAtMut F.FnOnce op [] (Ok tt) pushed
            × IsChoiceOf (Blocks pushed) self.new.v6) }
        ensures others { self.new ≡ record self.old { v6 = self.new.v6 } }
        ensures err { OnErr result (self.new ≡ self.old) }
    {
        self.holdings.v6 = built_addresses(alloc, op)?;
        Ok(())
    }

    /// The AS resources (RFC 3779 3.2.3).
    pub fn as_resources(&self) -> &AsResources
        ensures { result.now ≡ self.now.asn }
    {
        &self.holdings.asn
    }

    /// Sets the AS resources.
    pub fn set_as_resources(&mut self, resources: AsResources)
        ensures { self.new ≡ record self.old { asn = resources } }
    {
        self.holdings.asn = resources;
    }

    /// Sets the AS resources to the issuer's.
    pub fn set_as_resources_inherit(&mut self)
        ensures { self.new ≡ record self.old { asn = Inherit } }
    {
        self.holdings.asn = AsResources::inherit();
    }

    /// Sets the AS resources to a list: of the blocks that `op` pushes. Where `op` or a growth of memory is refused
    /// nothing changes.
    pub fn build_as_resource_blocks<F: FnOnce(&mut AsBlocksBuilder) -> Result<(), AllocError>>(
        &mut self,
        alloc: Global,
        op: F,
    ) -> Result<(), AllocError>
        requires { F.IsAlwaysCallable op }
        ensures ok { OnOk result ((pushed : List Run)
            × FnOnceReturnsAtMut F.FnOnce op [] (Ok tt) pushed
            × IsChoiceOf (Blocks pushed) self.new.asn) }
        ensures others { self.new ≡ record self.old { asn = self.new.asn } }
        ensures err { OnErr result (self.new ≡ self.old) }
    {
        self.holdings.asn = built_numbers(alloc, op)?;
        Ok(())
    }

    /// Whether there are IP resources: of one family at least.
    pub fn has_ip_resources(&self) -> bool
        ensures { IsTrue result ↔ (self.now.v4 ≢ Missing) ⊎ (self.now.v6 ≢ Missing) }
    {
        self.holdings.v4.is_present() || self.holdings.v6.is_present()
    }
}
