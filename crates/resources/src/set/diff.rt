//! What sets of resources differ in.

ghost use Rattle.std.specs.Prelude.{◌≡◌, ◌↔◌, IsTrue, Some, codes};
ghost use Rattle.std.specs.Fmt.{DisplaysOnOk};
ghost use Rattle.resources.specs.resources_ip_prefix.declared.addr.AddressFamily.TheVariants.{Ipv4, Ipv6};
ghost use Rattle.resources.specs.resources_as.Texts.{as_set_text};
ghost use Rattle.resources.specs.resources_ip.Texts.{ip_set_text};
ghost use Rattle.resources.specs.Resources.{HasNone};
ghost use Rattle.resources.specs.Texts.{changes_text, kind_text, kinds_text, no_runs};

use crate::set::family::blocks::{Ipv4Blocks, Ipv6Blocks};
use crate::set::set::ResourceSet;
use resources_as::AsBlocks;
use std::fmt;
use std::marker::Model;

/// What a set has more than another, and what it lacks of it.
#[derive(Debug, Drop)]
pub struct ResourceDiff {
    added: ResourceSet,
    removed: ResourceSet,
}

impl Model for ResourceDiff {
    ghost use Rattle.resources.specs.Resources.{Changes};

    ghost Value = { Changes };

    ghost view = { λ diff. record { added = diff.added; removed = diff.removed } };
}

impl ResourceDiff {
    // These resources more, and those less.
    pub(crate) fn new(added: ResourceSet, removed: ResourceSet) -> Self
        ensures { result ≡ record { added = added; removed = removed } }
    {
        ResourceDiff { added, removed }
    }

    /// What is there more.
    pub fn added(&self) -> &ResourceSet
        ensures { result.now ≡ self.now.added }
    {
        &self.added
    }

    /// What there is no more.
    pub fn removed(&self) -> &ResourceSet
        ensures { result.now ≡ self.now.removed }
    {
        &self.removed
    }

    /// Whether the sets are the same.
    pub fn is_empty(&self) -> bool
        ensures { IsTrue result ↔ (HasNone self.now.added × HasNone self.now.removed) }
    {
        self.added.is_empty() && self.removed.is_empty()
    }
}

// The AS numbers after their name, where there are some.
fn write_asn<W: fmt::Write>(asn: &AsBlocks, f: &mut fmt::Formatter<W>) -> fmt::Result
    ensures { DisplaysOnOk W.Write.write_str_gives f.old result
        (Some (kind_text (codes " asn: ") as_set_text asn.now)) f.new }
{
    asn.runs_are_maximal();
    if asn.is_empty() {
        return Ok(());
    }
    write!(f, " asn: {asn}")
}

// The IPv4 addresses after their name, where there are some.
fn write_ipv4<W: fmt::Write>(ipv4: &Ipv4Blocks, f: &mut fmt::Formatter<W>) -> fmt::Result
    ensures { DisplaysOnOk W.Write.write_str_gives f.old result
        (Some (kind_text (codes " ipv4: ") (ip_set_text Ipv4) ipv4.now)) f.new }
{
    let blocks = ipv4.as_blocks();
    blocks.runs_are_maximal();
    if blocks.is_empty() {
        return Ok(());
    }
    write!(f, " ipv4: {ipv4}")
}

// The IPv6 addresses after their name, where there are some.
fn write_ipv6<W: fmt::Write>(ipv6: &Ipv6Blocks, f: &mut fmt::Formatter<W>) -> fmt::Result
    ensures { DisplaysOnOk W.Write.write_str_gives f.old result
        (Some (kind_text (codes " ipv6: ") (ip_set_text Ipv6) ipv6.now)) f.new }
{
    let blocks = ipv6.as_blocks();
    blocks.runs_are_maximal();
    if blocks.is_empty() {
        return Ok(());
    }
    write!(f, " ipv6: {ipv6}")
}

// The kinds of which there are some, each after its name.
fn write_kinds<W: fmt::Write>(set: &ResourceSet, f: &mut fmt::Formatter<W>) -> fmt::Result
    ensures { DisplaysOnOk W.Write.write_str_gives f.old result (Some (kinds_text set.now)) f.new }
{
    write_asn(set.asn(), f)?;
    write_ipv4(set.ipv4(), f)?;
    write_ipv6(set.ipv6(), f)
}

/// `Added: asn: .. Removed: ipv4: ..`, with the kinds of which there are some, or `<no changes in resources>`.
impl fmt::Display for ResourceDiff {
    ghost output = { λ diff. Some (changes_text diff) };

    fn fmt<W: fmt::Write>(&self, f: &mut fmt::Formatter<W>) -> fmt::Result {
        match (has_no_runs(&self.added), has_no_runs(&self.removed)) {
            (true, true) => f.write_str("<no changes in resources>"),
            (true, false) => {
                f.write_str("Removed:")?;
                write_kinds(&self.removed, f)
            }
            (false, true) => {
                f.write_str("Added:")?;
                write_kinds(&self.added, f)
            }
            (false, false) => {
                f.write_str("Added:")?;
                write_kinds(&self.added, f)?;
                f.write_str(" Removed:")?;
                write_kinds(&self.removed, f)
            }
        }
    }
}

// Whether no kind has a run.
fn has_no_runs(set: &ResourceSet) -> bool
    ensures { result ≡ no_runs set.now }
{
    set.asn().runs_are_maximal();
    set.ipv4().as_blocks().runs_are_maximal();
    set.ipv6().as_blocks().runs_are_maximal();
    set.is_empty()
}
