//! The only path of each signer.

ghost use Rattle.std.specs.Prelude.{◌≡◌, Any, IfOk, MatchOption, replicate};
ghost use Rattle.objects_rta_valid.specs.Nodes.{each_octets};
ghost use Rattle.objects_rta_valid.specs.Paths.{ArePaths, HasNoOnlyPath};
ghost use Rattle.objects_rta_valid.specs.declared.paths.lengths.Length.TheVariants.{Unknown};

use crate::paths::graph::steps_of;
use crate::paths::lengths::{Length, Start, length_of};
use crate::paths::node::NodeKeys;
use crate::paths::places::Paths;
use crate::paths::table::{Found, table_of};
use std::alloc::{AllocError, Global};

// As many lengths, none of which is known.
fn unknown(alloc: Global, count: usize) -> Result<Vec<Length>, AllocError>
    ensures { IfOk result (λ lengths. lengths.items ≡ replicate count Unknown) }
{
    let lengths = vec![in alloc; Length::Unknown; count]?;
    Ok(lengths)
}

/// The only path of each signer, in their order; none where some signer has no path, or two. Each certificate is looked up
/// once, and each place followed once, whichever paths it is on.
pub fn paths(
    alloc: Global,
    nodes: &[NodeKeys<'_>],
    signers: &[&[u8]],
) -> Result<Option<Paths>, AllocError>
    ensures { IfOk result (λ found. MatchOption found
        (Any (HasNoOnlyPath nodes.now) (each_octets signers.now))
        (ArePaths nodes.now (each_octets signers.now))) }
{
    let subjects = table_of(alloc, nodes, false)?;
    let steps = steps_of(alloc, nodes)?;
    let mut lengths = unknown(alloc, nodes.len())?;
    let mut starts = Vec::new(alloc);
    for signer in signers {
        let Found::One(first) = subjects.find(signer) else {
            return Ok(None);
        };
        let Some(count) = length_of(alloc, &steps, &mut lengths, first)? else {
            return Ok(None);
        };
        starts.push(Start { first, count })?;
    }
    Ok(Some(Paths {
        steps,
        lengths,
        starts,
    }))
}
