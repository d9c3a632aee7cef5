//! Where a path goes on from each certificate.

ghost use Rattle.std.specs.Prelude.{◌≡◌, IfOk};
ghost use Rattle.objects_rta_valid.specs.Runs.{IsGraph};
ghost use Rattle.objects_rta_valid.specs.Tables.{above_in};

use crate::paths::node::NodeKeys;
use crate::paths::table::{Found, Table, table_of};
use std::alloc::{AllocError, Global};

// The certificates that a path goes on with from this one: none where it is self-signed.
fn above(node: &NodeKeys<'_>, issuers: &Table<'_>) -> Found
    ensures { result ≡ above_in issuers.now node.now.subject node.now.authority }
{
    let Some(key) = node.authority() else {
        return Found::Nothing;
    };
    if key == node.subject() {
        return Found::Nothing;
    }
    issuers.find(key)
}

/// Of each certificate, with which a path goes on.
pub(crate) fn steps_of(alloc: Global, nodes: &[NodeKeys<'_>]) -> Result<Vec<Found>, AllocError>
    ensures { IfOk result (λ steps. IsGraph nodes.now steps.items) }
{
    let issuers = table_of(alloc, nodes, true)?;
    let mut steps = Vec::new(alloc);
    for node in nodes {
        steps.push(above(node, &issuers))?;
    }
    Ok(steps)
}
