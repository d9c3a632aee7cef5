//! Values that are gone through, once for their length and once to write them.

ghost use Rattle.std.specs.Prelude.{◌≡◌, [], ◌∷◌, List, MatchOption, IfOk, IfErr, OnOk};
ghost use Rattle.bcder_values.specs.Lists.{AreAll, WritesAll, all_spelled, all_one};
ghost use Rattle.bcder_values.specs.Writable.{Writable};
ghost use Rattle.bcder_values.specs.bcder_primitive.Writing.{HasLength, Wrote, TookFront, CannotWrite, WriteRefused};
ghost use Rattle.bcder_values.specs.bcder_primitive.declared.written.error.EncodeError.TheVariants.{Write as refusal};

use crate::bcder_tree::Mode;
use crate::{EncodeError, Values};
use std::io::Write;

/// What has values one after the other, and can be gone through from its beginning as often as is wanted.
///
/// `items` are the values that are still to come.
pub trait Walk: Drop {
    /// What is gone through.
    type Item: Values + Drop;

    ghost items: { Self → List Self.Item };

    /// The next value, or None where there is none left.
    fn next(&mut self) -> Option<Self::Item>
        ensures { MatchOption result (items self.old ≡ [])
            (λ v. items self.old ≡ v ∷ items self.new) };

    /// Another walk over the values that are still to come; it takes no memory.
    fn again(&self) -> Self
    where
        Self: Sized,
        ensures { items result ≡ items self.now };
}

/// The values of a walk.
#[derive(Clone, Copy, Debug, Drop)]
pub struct Iter<T>(pub T);

// How many octets all values have together.
fn len_of_walk<T: Walk>(walk: &T, mode: Mode) -> Result<usize, EncodeError>
    ensures len { IfOk result
        (HasLength (WritesAll (λ v. T.Item.writes v mode) (T.items walk.now))) }
    ensures refused { IfErr result
        (CannotWrite (AreAll (λ v. T.Item.trees v mode) (T.items walk.now))
        (WritesAll (λ v. T.Item.writes v mode) (T.items walk.now))) }
{
    let mut sum = 0usize;
    let mut rest = walk.again();
    while let Some(item) = rest.next() {
        let len = item.encoded_len(mode)?;
        match sum.checked_add(len) {
            Some(total) => sum = total,
            None => return Err(EncodeError::TooLong),
        }
    }
    Ok(sum)
}

// Writes all values, which `len_of_walk` doesn't refuse.
fn put_walk<T: Walk, W: Write>(walk: &T, mode: Mode, target: &mut W) -> Result<(), EncodeError>
    requires { Writable (WritesAll (λ v. T.Item.writes v mode) (T.items walk.now)) }
    ensures written { OnOk result
        (Wrote (WritesAll (λ v. T.Item.writes v mode) (T.items walk.now)) (W.contents target.old)
        (W.contents target.new)) }
    ensures refused { IfErr result (λ e. (e ≡ refusal)
        × TookFront (WritesAll (λ v. T.Item.writes v mode) (T.items walk.now))
        (W.contents target.old) (W.contents target.new)) }
{
    let mut rest = walk.again();
    while let Some(item) = rest.next() {
        item.write_known(mode, target)?;
    }
    Ok(())
}

// Writes all values, or nothing where `len_of_walk` refuses.
fn write_walk<T: Walk, W: Write>(walk: &T, mode: Mode, target: &mut W) -> Result<(), EncodeError>
    ensures written { OnOk result
        (Wrote (WritesAll (λ v. T.Item.writes v mode) (T.items walk.now)) (W.contents target.old)
        (W.contents target.new)) }
    ensures refused { IfErr result
        (WriteRefused (AreAll (λ v. T.Item.trees v mode) (T.items walk.now))
        (WritesAll (λ v. T.Item.writes v mode) (T.items walk.now)) (target.new ≡ target.old)
        (W.contents target.old) (W.contents target.new)) }
{
    len_of_walk(walk, mode)?;
    put_walk(walk, mode, target)
}

/// The values that are still to come, in their order.
impl<T: Walk> Values for Iter<T> {
    ghost trees = { λ x m. AreAll (λ v. T.Item.trees v m) (T.items x.0) };

    ghost writes = { λ x m. WritesAll (λ v. T.Item.writes v m) (T.items x.0) };

    fn encoded_len(&self, mode: Mode) -> Result<usize, EncodeError> {
        len_of_walk(&self.0, mode)
    }

    fn write_encoded<W: Write>(&self, mode: Mode, target: &mut W) -> Result<(), EncodeError> {
        write_walk(&self.0, mode, target)
    }

    fn write_known<W: Write>(&self, mode: Mode, target: &mut W) -> Result<(), EncodeError> {
        put_walk(&self.0, mode, target)
    }

    ghost spelled = { λ x m. all_spelled m (λ v. T.Item.spelled v m) (T.items x.0) };

    ghost one_text = { λ x m. all_one (λ v. T.Item.one_text v m) (T.items x.0) };
}
