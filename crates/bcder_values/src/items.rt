//! Items of a slice that are written, each as values that are made of it.

ghost use Rattle.std.specs.Prelude.{◌≡◌, ◌↔◌, ℕ, List, IfOk, IfErr, OnOk};
ghost use Rattle.bcder_values.specs.bcder_tree.declared.mode.Mode.{Mode as ModeValue};
ghost use Rattle.bcder_values.specs.bcder_tree.Tree.{Trees};
ghost use Rattle.bcder_values.specs.bcder_primitive.Encoded.{SpellsSome};
ghost use Rattle.bcder_values.specs.Lists.{AreAll, WritesAll, all_spelled, all_one};
ghost use Rattle.bcder_values.specs.Writable.{Writable};
ghost use Rattle.bcder_values.specs.bcder_primitive.Writing.{HasLength, Wrote, TookFront, CannotWrite, WriteRefused};
ghost use Rattle.bcder_values.specs.bcder_primitive.declared.written.error.EncodeError.TheVariants.{Write as refusal};

use crate::bcder_tree::Mode;
use crate::{EncodeError, Values};
use std::io::Write;

/// How items are made into the values that are written of them.
///
/// `trees` are the values that an item stands for in a mode, and `writes` is what is written of it, as in
/// [`Values`].
pub trait Encodes<'a, U> {
    /// The values that are made of an item; they may borrow from it.
    type Given: Values + Drop;

    ghost trees: { Self → U → ModeValue → Trees → Type 0 };

    ghost writes: { Self → U → ModeValue → List ℕ → Type 0 };

    /// The values that are written of an item.
    fn values_of(&self, item: &'a U) -> Self::Given
        ensures trees { (m : ModeValue) (ts : Trees) → Self.Given.trees result m ts
            ↔ trees self.now item.now m ts }
        ensures writes { (m : ModeValue) (text : List ℕ) → Self.Given.writes result m text
            ↔ writes self.now item.now m text };

    // What is written of an item spells its values.
    ghost spelled: { (e : Self) (x : U) (m : ModeValue) (text : List ℕ)
        → writes e x m text → SpellsSome m (trees e x m) text };

    // It is always the same.
    ghost one_text: { (e : Self) (x : U) (m : ModeValue) (a b : List ℕ)
        → writes e x m a → writes e x m b → a ≡ b };
}

/// Each item as it is, where items are values that can be written.
#[derive(Clone, Copy, Debug, Drop)]
pub struct Itself;

impl<'a, V: Values + 'a> Encodes<'a, V> for Itself {
    type Given = &'a V;

    ghost trees = { λ e x m. V.trees x m };

    ghost writes = { λ e x m. V.writes x m };

    fn values_of(&self, item: &'a V) -> &'a V {
        item
    }

    ghost spelled = { λ e x m. V.spelled x m };

    ghost one_text = { λ e x m. V.one_text x m };
}

/// The items of a slice, and how each is written.
#[derive(Clone, Copy, Debug, Drop)]
pub struct Slice<'a, U, E> {
    /// The items, in their order.
    pub items: &'a [U],
    /// How each is written.
    pub by: E,
}

// How many octets are written of an item; it is always the same.
fn len_of_item<'a, U, E: Encodes<'a, U>>(
    by: &E,
    item: &'a U,
    mode: Mode,
) -> Result<usize, EncodeError>
    ensures len { IfOk result (HasLength (E.writes by.now item.now mode)) }
    ensures refused { IfErr result
        (CannotWrite (E.trees by.now item.now mode) (E.writes by.now item.now mode)) }
    ensures one { (a b : List ℕ) → E.writes by.now item.now mode a → E.writes by.now item.now mode b
        → a ≡ b }
{
    let values = by.values_of(item);
    values.encoded_len(mode)
}

// Writes an item that `len_of_item` doesn't refuse.
fn write_item<'a, U, E: Encodes<'a, U>, W: Write>(
    by: &E,
    item: &'a U,
    mode: Mode,
    target: &mut W,
) -> Result<(), EncodeError>
    requires { Writable (E.writes by.now item.now mode) }
    ensures written { OnOk result
        (Wrote (E.writes by.now item.now mode) (W.contents target.old) (W.contents target.new)) }
    ensures refused { IfErr result (λ e. (e ≡ refusal)
        × TookFront (E.writes by.now item.now mode) (W.contents target.old)
        (W.contents target.new)) }
{
    let values = by.values_of(item);
    values.write_known(mode, target)
}

// How many octets are written of all items together.
pub(crate) fn len_of_each<'a, U, E: Encodes<'a, U>>(
    by: &E,
    items: &'a [U],
    mode: Mode,
) -> Result<usize, EncodeError>
    ensures len { IfOk result (HasLength (WritesAll (λ x. E.writes by.now x mode) items.now)) }
    ensures refused { IfErr result
        (CannotWrite (AreAll (λ x. E.trees by.now x mode) items.now)
        (WritesAll (λ x. E.writes by.now x mode) items.now)) }
{
    let mut sum = 0usize;
    let mut rest = items;
    while let Some((first, others)) = rest.split_first() {
        let len = len_of_item(by, first, mode)?;
        match sum.checked_add(len) {
            Some(total) => sum = total,
            None => return Err(EncodeError::TooLong),
        }
        rest = others;
    }
    Ok(sum)
}

// Writes all items, which `len_of_each` doesn't refuse.
pub(crate) fn put_each<'a, U, E: Encodes<'a, U>, W: Write>(
    by: &E,
    items: &'a [U],
    mode: Mode,
    target: &mut W,
) -> Result<(), EncodeError>
    requires { Writable (WritesAll (λ x. E.writes by.now x mode) items.now) }
    ensures written { OnOk result
        (Wrote (WritesAll (λ x. E.writes by.now x mode) items.now) (W.contents target.old)
        (W.contents target.new)) }
    ensures refused { IfErr result (λ e. (e ≡ refusal)
        × TookFront (WritesAll (λ x. E.writes by.now x mode) items.now) (W.contents target.old)
        (W.contents target.new)) }
{
    let mut rest = items;
    while let Some((first, others)) = rest.split_first() {
        write_item(by, first, mode, target)?;
        rest = others;
    }
    Ok(())
}

// Writes all items, or nothing where `len_of_each` refuses.
pub(crate) fn write_each<'a, U, E: Encodes<'a, U>, W: Write>(
    by: &E,
    items: &'a [U],
    mode: Mode,
    target: &mut W,
) -> Result<(), EncodeError>
    ensures written { OnOk result
        (Wrote (WritesAll (λ x. E.writes by.now x mode) items.now) (W.contents target.old)
        (W.contents target.new)) }
    ensures refused { IfErr result
        (WriteRefused (AreAll (λ x. E.trees by.now x mode) items.now)
        (WritesAll (λ x. E.writes by.now x mode) items.now) (target.new ≡ target.old)
        (W.contents target.old) (W.contents target.new)) }
{
    len_of_each(by, items, mode)?;
    put_each(by, items, mode, target)
}

/// The values of all items, in their order.
impl<'a, U, E: Encodes<'a, U>> Values for Slice<'a, U, E> {
    ghost trees = { λ x m. AreAll (λ u. E.trees x.by u m) x.items.now };

    ghost writes = { λ x m. WritesAll (λ u. E.writes x.by u m) x.items.now };

    fn encoded_len(&self, mode: Mode) -> Result<usize, EncodeError> {
        len_of_each(&self.by, self.items, mode)
    }

    fn write_encoded<W: Write>(&self, mode: Mode, target: &mut W) -> Result<(), EncodeError> {
        write_each(&self.by, self.items, mode, target)
    }

    fn write_known<W: Write>(&self, mode: Mode, target: &mut W) -> Result<(), EncodeError> {
        put_each(&self.by, self.items, mode, target)
    }

    ghost spelled = { λ x m. all_spelled m (λ u. E.spelled x.by u m) x.items.now };

    ghost one_text = { λ x m. all_one (λ u. E.one_text x.by u m) x.items.now };
}
