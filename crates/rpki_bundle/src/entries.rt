//! Lists of entries, each read once from the front on.

ghost use Rattle.std.specs.Prelude.{◌↔◌, ◌≡◌, ℕ, List, IsTrue, OnErr, true};
ghost use Rattle.rpki_bundle.specs.bcder_content.Exact.{ReadsAs, ReadsAllAs, ReadsOptAs};
ghost use Rattle.rpki_bundle.specs.bcder_content.Grammar.{Many, One, Tagged};
ghost use Rattle.rpki_bundle.specs.bcder_content.Here.{here};
ghost use Rattle.rpki_bundle.specs.bcder_tree.declared.mode.Mode.{Mode};
ghost use Rattle.rpki_bundle.specs.bcder_tree.Tags.{sequence_tag};
ghost use Rattle.rpki_bundle.specs.bcder_tree.Tree.{Tree};
ghost use Rattle.rpki_bundle.specs.Bundle.{IsAscendingList};
ghost use Rattle.rpki_bundle.specs.Orders.{IsBefore, Ascends};
ghost use Rattle.rpki_bundle.specs.Lawful.{IsLawfulList};

use certs_key::decode::{Constructed, ContentError, DecodeError, Source};
use certs_key::encode::Values;
use std::alloc::Global;

/// What a list of a bundle has as its entries.
pub trait Entry: Values + Drop {
    // The grammar of an entry, in each mode.
    ghost form: { Mode → Tree → Self → Type 0 };

    // The octets by which entries are ordered.
    ghost sort_key: { Self → List ℕ };

    /// The next entry, if a SEQUENCE is next. Where it is refused, the content is failed.
    fn take_opt<S: Source>(
        alloc: Global,
        cons: &mut Constructed<S>,
    ) -> Result<Option<Self>, DecodeError<S::Error>>
    where
        Self: Sized,
        ensures reads { ReadsOptAs (λ entry. entry) sequence_tag (form (here S.rest cons.old).mode)
            (here S.rest cons.old) result (here S.rest cons.new) }
        ensures failed { OnErr result ((here S.rest cons.new).failed ≡ true) };

    /// Whether it stands before another one.
    fn is_before(&self, other: &Self) -> bool
        ensures { IsTrue result ↔ IsBefore (sort_key self.now) (sort_key other.now) };

    // What holds of the entries that bundles have.
    ghost lawful: { Self → Type 0 };

    /// Whether bundles may have it.
    fn is_lawful(&self) -> bool
        ensures { IsTrue result ↔ lawful self.now };

    // Entries are SEQUENCEs, and each is read in one way.
    ghost is_sequence: { (m : Mode) → Tagged sequence_tag (form m) };

    ghost one_value: { (m : Mode) → One (form m) };
}

/// Whether one row of octets stands before another.
pub fn stands_before(row: &[u8], other: &[u8]) -> bool
    ensures { IsTrue result ↔ IsBefore row.now other.now }
{
    row.cmp(&other).is_lt()
}

/// Whether each entry stands before the next.
pub fn is_ascending<E: Entry>(entries: &[E]) -> bool
    ensures { IsTrue result ↔ Ascends E.sort_key entries.now }
{
    for i in 1..entries.len() {
        if !entries[i - 1].is_before(&entries[i]) {
            return false;
        }
    }
    true
}

/// A list of entries, strictly ascending. Where it is refused, the content is failed.
pub fn take_list<E: Entry, S: Source>(
    alloc: Global,
    cons: &mut Constructed<S>,
) -> Result<Vec<E>, DecodeError<S::Error>>
    ensures reads { ReadsAs (λ entries. entries.items)
        (IsAscendingList (E.form (here S.rest cons.old).mode) E.sort_key)
        (here S.rest cons.old) result (here S.rest cons.new) }
    ensures failed { OnErr result ((here S.rest cons.new).failed ≡ true) }
{
    let entries = cons.take_sequence(
        |cons|
            ensures { ReadsAllAs (λ entries. entries.items)
                (Many (E.form (here S.rest cons.old).mode)) (here S.rest cons.old) result
                (here S.rest cons.new) }
        {
            let mut entries = Vec::new(alloc);
            while let Some(entry) = E::take_opt(alloc, cons)? {
                entries.push(entry)?;
            }
            Ok(entries)
        },
    )?;
    if !is_ascending(entries.as_slice()) {
        cons.fail();
        return Err(cons.content_err(ContentError::from_static(
            "the entries of a list don't ascend",
        )));
    }
    Ok(entries)
}

/// Whether bundles may have the list.
pub fn is_lawful_list<E: Entry>(entries: &[E]) -> bool
    ensures { IsTrue result ↔ IsLawfulList E.lawful E.sort_key entries.now }
{
    for entry in entries {
        if !entry.is_lawful() {
            return false;
        }
    }
    is_ascending(entries)
}
