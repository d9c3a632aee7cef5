//! Places on paths, taken out of them: firsts, lasts, and pairs of neighbours.

ghost use Rattle.std.specs.Prelude.{◌≡◌, ◌++◌, IfOk, OnOk, length};
ghost use Rattle.objects_rta_valid.specs.Places.{AreFunctional, AreLinks, ArePairsTo, BeginBelow, HaveSame, first_of, firsts, link_pair, linked, pairs, pairs_of};

use crate::paths::{PathPlaces, Paths};
use std::alloc::{AllocError, Global};

// Adds the first place of a path.
fn push_first(firsts: &mut Vec<usize>, path: PathPlaces<'_>) -> Result<(), AllocError>
    ensures { OnOk result (firsts.new.items ≡ firsts.old.items ++ first_of path.entry) }
{
    let mut path = path;
    if let Some(place) = path.next() {
        firsts.push(place)?;
    }
    Ok(())
}

// Writes behind each place of a path the next one.
fn link_path(links: &mut Vec<Option<usize>>, path: PathPlaces<'_>)
    requires { BeginBelow (length links.old.items) (pairs_of path) }
    ensures { links.new.items ≡ linked links.old.items (pairs_of path.entry) }
{
    let mut path = path;
    let Some(first) = path.next() else {
        return;
    };
    let mut last = first;
    while let Some(place) = path.next() {
        links[last] = Some(place);
        last = place;
    }
}

// Adds a place with what stands behind it, if anything does.
fn push_link(
    pairs: &mut Vec<(usize, usize)>,
    place: usize,
    link: Option<usize>,
) -> Result<(), AllocError>
    ensures { OnOk result (pairs.new.items ≡ pairs.old.items ++ link_pair place link) }
{
    if let Some(next) = link {
        pairs.push((place, next))?;
    }
    Ok(())
}

// The places of a table with what stands behind each.
fn linked_pairs(alloc: Global, links: &[Option<usize>]) -> Result<Vec<(usize, usize)>, AllocError>
    ensures { IfOk result (λ v. ArePairsTo links.now (length links.now) v.items) }
{
    let mut pairs = Vec::new(alloc);
    for (place, link) in links.iter().enumerate() {
        push_link(&mut pairs, place, *link)?;
    }
    Ok(pairs)
}

/// The first places of paths, in their order.
pub(crate) fn first_places(alloc: Global, paths: &Paths) -> Result<Vec<usize>, AllocError>
    ensures { IfOk result (λ v. v.items ≡ firsts paths.now.paths) }
{
    let mut firsts = Vec::new(alloc);
    for signer in 0..paths.len() {
        push_first(&mut firsts, paths.path(signer))?;
    }
    Ok(firsts)
}

/// By place, the place behind it on paths, where there is one.
pub(crate) fn links(alloc: Global, paths: &Paths) -> Result<Vec<Option<usize>>, AllocError>
    requires inside { BeginBelow paths.now.count (pairs paths.now.paths) }
    requires functional { AreFunctional (pairs paths.now.paths) }
    ensures { IfOk result (λ v. AreLinks (pairs paths.now.paths) paths.now.count v.items) }
{
    let mut links = vec![in alloc; None; paths.count()]?;
    for signer in 0..paths.len() {
        link_path(&mut links, paths.path(signer));
    }
    Ok(links)
}

/// The pairs of neighbours on paths, the lower one first, each once, however many paths it is on.
pub(crate) fn neighbours(alloc: Global, paths: &Paths) -> Result<Vec<(usize, usize)>, AllocError>
    requires inside { BeginBelow paths.now.count (pairs paths.now.paths) }
    requires functional { AreFunctional (pairs paths.now.paths) }
    ensures { IfOk result (λ v. HaveSame v.items (pairs paths.now.paths)) }
{
    let behind = links(alloc, paths)?;
    let found = linked_pairs(alloc, behind.as_slice())?;
    Ok(found)
}
