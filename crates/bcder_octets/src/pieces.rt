//! The segments of a string, within octets that were captured.

ghost use Rattle.std.specs.Prelude.{[], ◌≡◌, ◌↔◌, IsTrue, ◌<◌, ◌≤◌, ℕ, List, length, IfOk, IfSome, IfNone};
ghost use Rattle.bcder_octets.specs.bcder_tree.Tree.{Trees, SpellsAll};
ghost use Rattle.bcder_octets.specs.bcder_tree.Strings.{AreSegments};
ghost use Rattle.bcder_octets.specs.bcder_tree.declared.mode.Mode.TheVariants.{Ber};
ghost use Rattle.bcder_octets.specs.bcder_content.Openings.{NoHead};
ghost use Rattle.bcder_octets.specs.Pieces.{IsHeaded, Holds, StepsTo, IsShorter, NextPiece, ArePlain, MayStand, TellsCut};

use crate::bcder_source::{Length, Mode, Tag};
use std::alloc::{AllocError, Global};

// How many octets a segment has in CER, but for the last (X.690 9.2).
pub(crate) const SEGMENT: usize = 1000;

// What stands in front of octets of values.
enum Item<'a> {
    // A primitive value: its octets, and what comes after it.
    Piece(&'a [u8], &'a [u8]),
    // The header of a constructed value, or end-of-contents: what comes after it.
    Around(&'a [u8]),
    // None of them.
    End,
}

// The header in front: whether the value is constructed, the length of its content, and how many octets the
// header has.
fn heading(octets: &[u8]) -> Option<(bool, Length, usize)>
    ensures found { IfSome result (λ r. IsHeaded r.0 r.1 r.2 octets.now) }
    ensures bound { IfSome result (λ r. r.2 ≤ length octets.now) }
    ensures none { IfNone result (NoHead Ber octets.now) }
{
    let Some((_, constructed, before)) = Tag::read(octets) else {
        return None;
    };
    let Some((length, size)) = Length::read(Mode::Ber, &octets[before..]) else {
        return None;
    };
    Some((constructed, length, before + size))
}

// What stands in front of octets of values.
fn step<'a>(octets: &'a [u8]) -> Item<'a>
    ensures told { (pieces : List (List ℕ)) → Holds pieces octets.now → StepsTo pieces result }
    ensures shorter { IsShorter octets.now result }
{
    let Some((constructed, length, count)) = heading(octets) else {
        return match octets {
            [_, _, behind @ ..] => Item::Around(behind),
            _ => Item::End,
        };
    };
    let behind = &octets[count..];
    match length {
        Length::Definite(length) if !constructed => {
            if behind.len() < length {
                return Item::End;
            }
            let (piece, behind) = behind.split_at(length);
            Item::Piece(piece, behind)
        }
        _ => Item::Around(behind),
    }
}

/// The octets of the first primitive value within octets of values, and what comes after it; nothing where they
/// have none. Headers of constructed values, and end-of-contents, are passed over (X.690 8.1.5).
pub fn next_piece<'a>(octets: &'a [u8]) -> Option<(&'a [u8], &'a [u8])>
    ensures found { IfSome result (λ r. (pieces : List (List ℕ)) → Holds pieces octets.now
        → NextPiece pieces r.0.now r.1.now) }
    ensures shorter { IfSome result (λ r. length r.1.now < length octets.now) }
    ensures none { IfNone result
        ((pieces : List (List ℕ)) → Holds pieces octets.now → pieces ≡ []) }
{
    let mut rest = octets;
    loop {
        match step(rest) {
            Item::Piece(piece, behind) => return Some((piece, behind)),
            Item::Around(behind) => rest = behind,
            Item::End => return None,
        }
    }
}

// The string whose segments the octets spell, nested at will (X.690 8.7.3).
pub(crate) fn join(alloc: Global, octets: &[u8]) -> Result<Vec<u8>, AllocError>
    ensures { IfOk result (λ v. (ts : Trees) (w : List ℕ) → SpellsAll Ber ts octets.now
        → AreSegments ts w → v.items ≡ w) }
{
    let mut out = Vec::new(alloc);
    let mut rest = octets;
    while let Some((piece, behind)) = next_piece(rest) {
        out.extend_from_slice(piece)?;
        rest = behind;
    }
    Ok(out)
}

// Whether a segment may stand in CER after one of so many octets.
fn may_stand(before: usize, piece: &[u8]) -> bool
    ensures { IsTrue result ↔ MayStand before piece.now }
{
    before == SEGMENT && !piece.is_empty() && piece.len() <= SEGMENT
}

// The string of more than 1000 octets whose segments in CER the octets spell, if the primitive values that
// they spell are such (9.2).
pub(crate) fn join_cut(alloc: Global, octets: &[u8]) -> Result<Option<Vec<u8>>, AllocError>
    ensures { IfOk result (λ r. (ts : Trees) (pieces : List (List ℕ)) → SpellsAll Ber ts octets.now
        → ArePlain ts pieces → TellsCut (λ v. v.items) ts r) }
{
    let mut cut = Vec::new(alloc);
    let mut rest = octets;
    let mut before = SEGMENT;
    while let Some((piece, behind)) = next_piece(rest) {
        if !may_stand(before, piece) {
            return Ok(None);
        }
        cut.extend_from_slice(piece)?;
        before = piece.len();
        rest = behind;
    }
    if cut.len() <= SEGMENT {
        return Ok(None);
    }
    Ok(Some(cut))
}
