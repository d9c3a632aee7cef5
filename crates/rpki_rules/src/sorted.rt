//! Lists in order, without repeats.

ghost use Rattle.std.specs.Prelude.{◌≡◌, OnOk};
ghost use Rattle.std.specs.declared.cmp.Ordering.TheVariants.{Equal};
ghost use Rattle.std.specs.List.Sorted.{IsStrictlySortedBy};
ghost use Rattle.rpki_rules.specs.Words.{Mem};

use std::alloc::AllocError;

/// Sorts, and leaves one of those that the order has equal.
pub fn sort_once<T: Ord + Drop>(values: &mut Vec<T>) -> Result<(), AllocError>
    ensures sorted { OnOk result (IsStrictlySortedBy T.cmp values.new.items) }
    ensures from_old { OnOk result ((x : T) → Mem values.new.items x → Mem values.old.items x) }
    ensures kept { OnOk result ((x : T) → Mem values.old.items x →
        (y : T) × Mem values.new.items y × (T.cmp x y ≡ Equal)) }
{
    values.sort()?;
    values.dedup();
    Ok(())
}
