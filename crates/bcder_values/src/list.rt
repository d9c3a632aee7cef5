//! Lists of values.

ghost use Rattle.std.specs.Prelude.{◌≡◌};
ghost use Rattle.bcder_values.specs.Lists.{AreAll, WritesAll, all_spelled, all_one};

use crate::bcder_tree::Mode;
use crate::items::{len_of_each, put_each, write_each};
use crate::{EncodeError, Iter, Itself, Slice, Values};
use std::io::Write;

/// The items of a slice, each written as the values that are made of it.
pub fn slice<'a, U, E>(items: &'a [U], by: E) -> Slice<'a, U, E>
    ensures items { result.items.now ≡ items.now }
    ensures by { result.by ≡ by }
{
    Slice { items, by }
}

/// The values of a walk.
pub fn iter<T>(walk: T) -> Iter<T>
    ensures { result.0 ≡ walk }
{
    Iter(walk)
}

/// All values, in their order.
impl<V: Values> Values for &[V] {
    ghost trees = { λ x m. AreAll (λ v. V.trees v m) x.now };

    ghost writes = { λ x m. WritesAll (λ v. V.writes v m) x.now };

    fn encoded_len(&self, mode: Mode) -> Result<usize, EncodeError> {
        len_of_each(&Itself, *self, mode)
    }

    fn write_encoded<W: Write>(&self, mode: Mode, target: &mut W) -> Result<(), EncodeError> {
        write_each(&Itself, *self, mode, target)
    }

    fn write_known<W: Write>(&self, mode: Mode, target: &mut W) -> Result<(), EncodeError> {
        put_each(&Itself, *self, mode, target)
    }

    ghost spelled = { λ x m. all_spelled m (λ v. V.spelled v m) x.now };

    ghost one_text = { λ x m. all_one (λ v. V.one_text v m) x.now };
}

/// All values, in their order.
impl<V: Values> Values for Vec<V> {
    ghost trees = { λ x m. AreAll (λ v. V.trees v m) x.items };

    ghost writes = { λ x m. WritesAll (λ v. V.writes v m) x.items };

    fn encoded_len(&self, mode: Mode) -> Result<usize, EncodeError> {
        len_of_each(&Itself, self.as_slice(), mode)
    }

    fn write_encoded<W: Write>(&self, mode: Mode, target: &mut W) -> Result<(), EncodeError> {
        write_each(&Itself, self.as_slice(), mode, target)
    }

    fn write_known<W: Write>(&self, mode: Mode, target: &mut W) -> Result<(), EncodeError> {
        put_each(&Itself, self.as_slice(), mode, target)
    }

    ghost spelled = { λ x m. all_spelled m (λ v. V.spelled v m) x.items };

    ghost one_text = { λ x m. all_one (λ v. V.one_text v m) x.items };
}
