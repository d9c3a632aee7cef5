//! Resources that are put together in place (RFC 6487 4.8.10, 4.8.11).

ghost use Rattle.std.specs.Prelude.{◌≡◌, [], IfOk, List, Ok, OnErr, OnOk, map, ⊤};
ghost use Rattle.std.specs.Fn.{FnOnceReturnsAtMut};
ghost use Rattle.std.specs.Iterator.{DrainsIf, IsFinite};
ghost use Rattle.certs_cert.specs.resources_chain.Choices.{IsChoiceOf};
ghost use Rattle.certs_cert.specs.resources_chain.Sets.{Run};
ghost use Rattle.certs_cert.specs.resources_chain.declared.choice.ResourcesChoice.TheVariants.{Blocks};

use crate::tbs::TbsCert;
use certs_extension::forms::{
    AsBlock, AsBlocks, AsBlocksBuilder, AsResources, AsResourcesBuilder, Block, IpBlock, IpBlocks,
    IpBlocksBuilder, IpResources, IpResourcesBuilder,
};
use std::alloc::{AllocError, Global};

// The addresses that a function pushes.
fn built_addresses<F: FnOnce(&mut IpBlocksBuilder) -> Result<(), AllocError>>(
    alloc: Global,
    op: F,
) -> Result<IpResources, AllocError>
    requires { F.IsAlwaysCallable op }
    ensures { IfOk result (λ made. (pushed : List Run)
        × FnOnceReturnsAtMut F.FnOnce op [] (Ok tt) pushed × IsChoiceOf (Blocks pushed) made) }
{
    let mut builder = IpResourcesBuilder::new();
    builder.blocks(alloc, op)?;
    builder.finalize(alloc)
}

// The addresses of the blocks that come.
fn listed_addresses<I: Iterator<Item = IpBlock> + Drop>(
    alloc: Global,
    blocks: I,
) -> Result<IpResources, AllocError>
    requires can { I.can_next blocks }
    requires ends { IsFinite (I.remaining blocks) }
    ensures { IfOk result (λ made. (came : List _)
        × DrainsIf I.next_gives ⊤ blocks came
        × IsChoiceOf (Blocks (map ⟦<IpBlock as Block>⟧.run came)) made) }
{
    Ok(IpResources::blocks(IpBlocks::from_iter(alloc, blocks)?))
}

// The AS numbers that a function pushes.
fn built_numbers<F: FnOnce(&mut AsBlocksBuilder) -> Result<(), AllocError>>(
    alloc: Global,
    op: F,
) -> Result<AsResources, AllocError>
    requires { F.IsAlwaysCallable op }
    ensures { IfOk result (λ made. (pushed : List Run)
        × FnOnceReturnsAtMut F.FnOnce op [] (Ok tt) pushed × IsChoiceOf (Blocks pushed) made) }
{
    let mut builder = AsResourcesBuilder::new();
    builder.blocks(alloc, op)?;
    builder.finalize(alloc)
}

// The AS numbers of the blocks that come.
fn listed_numbers<I: Iterator<Item = AsBlock> + Drop>(
    alloc: Global,
    blocks: I,
) -> Result<AsResources, AllocError>
    requires can { I.can_next blocks }
    requires ends { IsFinite (I.remaining blocks) }
    ensures { IfOk result (λ made. (came : List _)
        × DrainsIf I.next_gives ⊤ blocks came
        × IsChoiceOf (Blocks (map ⟦<AsBlock as Block>⟧.run came)) made) }
{
    Ok(AsResources::blocks(AsBlocks::from_iter(alloc, blocks)?))
}

impl TbsCert {
    /// Sets the IPv4 resources to a list: of the blocks that `op` pushes. Where `op` or a growth of
    /// memory is refused nothing changes.
    pub fn build_v4_resource_blocks<F: FnOnce(&mut IpBlocksBuilder) -> Result<(), AllocError>>(
        &mut self,
        alloc: Global,
        op: F,
    ) -> Result<(), AllocError>
        requires { F.IsAlwaysCallable op }
        ensures ok { OnOk result ((pushed : List Run)
            × FnOnceReturnsAtMut F.FnOnce op [] (Ok tt) pushed
            × IsChoiceOf (Blocks pushed) self.new.v4) }
        ensures others { self.new ≡ record self.old { v4 = self.new.v4 } }
        ensures err { OnErr result (self.new ≡ self.old) }
    {
        self.v4_resources = built_addresses(alloc, op)?;
        Ok(())
    }

    /// Sets the IPv4 resources to a list: of the blocks that come, in any order. Where a growth of
    /// memory is refused nothing changes.
    pub fn v4_resources_from_iter<I: Iterator<Item = IpBlock> + Drop>(
        &mut self,
        alloc: Global,
        blocks: I,
    ) -> Result<(), AllocError>
        requires can { I.can_next blocks }
        requires ends { IsFinite (I.remaining blocks) }
        ensures ok { OnOk result ((came : List _) × DrainsIf I.next_gives ⊤ blocks came
            × IsChoiceOf (Blocks (map ⟦<IpBlock as Block>⟧.run came)) self.new.v4) }
        ensures others { self.new ≡ record self.old { v4 = self.new.v4 } }
        ensures err { OnErr result (self.new ≡ self.old) }
    {
        self.v4_resources = listed_addresses(alloc, blocks)?;
        Ok(())
    }

    /// Sets the IPv6 resources to a list: of the blocks that `op` pushes. Where `op` or a growth of
    /// memory is refused nothing changes.
    pub fn build_v6_resource_blocks<F: FnOnce(&mut IpBlocksBuilder) -> Result<(), AllocError>>(
        &mut self,
        alloc: Global,
        op: F,
    ) -> Result<(), AllocError>
        requires { F.IsAlwaysCallable op }
        ensures ok { OnOk result ((pushed : List Run)
            × FnOnceReturnsAtMut F.FnOnce op [] (Ok tt) pushed
            × IsChoiceOf (Blocks pushed) self.new.v6) }
        ensures others { self.new ≡ record self.old { v6 = self.new.v6 } }
        ensures err { OnErr result (self.new ≡ self.old) }
    {
        self.v6_resources = built_addresses(alloc, op)?;
        Ok(())
    }

    /// Sets the IPv6 resources to a list: of the blocks that come, in any order. Where a growth of
    /// memory is refused nothing changes.
    pub fn v6_resources_from_iter<I: Iterator<Item = IpBlock> + Drop>(
        &mut self,
        alloc: Global,
        blocks: I,
    ) -> Result<(), AllocError>
        requires can { I.can_next blocks }
        requires ends { IsFinite (I.remaining blocks) }
        ensures ok { OnOk result ((came : List _) × DrainsIf I.next_gives ⊤ blocks came
            × IsChoiceOf (Blocks (map ⟦<IpBlock as Block>⟧.run came)) self.new.v6) }
        ensures others { self.new ≡ record self.old { v6 = self.new.v6 } }
        ensures err { OnErr result (self.new ≡ self.old) }
    {
        self.v6_resources = listed_addresses(alloc, blocks)?;
        Ok(())
    }

    /// Sets the AS resources to a list: of the blocks that `op` pushes. Where `op` or a growth of
    /// memory is refused nothing changes.
    pub fn build_as_resource_blocks<F: FnOnce(&mut AsBlocksBuilder) -> Result<(), AllocError>>(
        &mut self,
        alloc: Global,
        op: F,
    ) -> Result<(), AllocError>
        requires { F.IsAlwaysCallable op }
        ensures ok { OnOk result ((pushed : List Run)
            × FnOnceReturnsAtMut F.FnOnce op [] (Ok tt) pushed
            × IsChoiceOf (Blocks pushed) self.new.asn) }
        ensures others { self.new ≡ record self.old { asn = self.new.asn } }
        ensures err { OnErr result (self.new ≡ self.old) }
    {
        self.as_resources = built_numbers(alloc, op)?;
        Ok(())
    }

    /// Sets the AS resources to a list: of the blocks that come, in any order. Where a growth of
    /// memory is refused nothing changes.
    pub fn as_resources_from_iter<I: Iterator<Item = AsBlock> + Drop>(
        &mut self,
        alloc: Global,
        blocks: I,
    ) -> Result<(), AllocError>
        requires can { I.can_next blocks }
        requires ends { IsFinite (I.remaining blocks) }
        ensures ok { OnOk result ((came : List _) × DrainsIf I.next_gives ⊤ blocks came
            × IsChoiceOf (Blocks (map ⟦<AsBlock as Block>⟧.run came)) self.new.asn) }
        ensures others { self.new ≡ record self.old { asn = self.new.asn } }
        ensures err { OnErr result (self.new ≡ self.old) }
    {
        self.as_resources = listed_numbers(alloc, blocks)?;
        Ok(())
    }
}
