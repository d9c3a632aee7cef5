//! Values of which one is written, or none.

ghost use Rattle.bcder_values.specs.Choices.{AreOptional, WritesOptional, AreEither, WritesEither, AreOneOf, WritesOneOf};
ghost use Rattle.bcder_values.specs.Choices.{optional_spelled, optional_one, either_spelled, either_one, one_of_spelled, one_of_one, nothing_spelled, nothing_one};
ghost use Rattle.bcder_values.specs.bcder_primitive.Encoded.{NoTree, NoText};

use crate::bcder_tree::Mode;
use crate::{EncodeError, Values};
use std::io::Write;

/// No values.
#[derive(Clone, Copy, Debug, PartialEq, Eq)]
pub struct Nothing;

impl Values for Nothing {
    ghost trees = { λ x m. NoTree };

    ghost writes = { λ x m. NoText };

    fn encoded_len(&self, _mode: Mode) -> Result<usize, EncodeError> {
        Ok(0)
    }

    fn write_encoded<W: Write>(&self, _mode: Mode, _target: &mut W) -> Result<(), EncodeError> {
        Ok(())
    }

    ghost spelled = { λ x m. nothing_spelled m };

    ghost one_text = { λ x m. nothing_one };
}

/// Values, or none of them.
impl<V: Values> Values for Option<V> {
    ghost trees = { λ x m. AreOptional (λ v. V.trees v m) x };

    ghost writes = { λ x m. WritesOptional (λ v. V.writes v m) x };

    fn encoded_len(&self, mode: Mode) -> Result<usize, EncodeError> {
        match self {
            Some(values) => values.encoded_len(mode),
            None => Ok(0),
        }
    }

    fn write_encoded<W: Write>(&self, mode: Mode, target: &mut W) -> Result<(), EncodeError> {
        match self {
            Some(values) => values.write_encoded(mode, target),
            None => Ok(()),
        }
    }

    fn write_known<W: Write>(&self, mode: Mode, target: &mut W) -> Result<(), EncodeError> {
        match self {
            Some(values) => values.write_known(mode, target),
            None => Ok(()),
        }
    }

    ghost spelled = { λ x m. optional_spelled m (λ v. V.spelled v m) x };

    ghost one_text = { λ x m. optional_one (λ v. V.one_text v m) x };
}

/// Values of one of two types.
#[derive(Clone, Copy, Debug, PartialEq, Eq, Drop)]
pub enum Choice2<L, R> {
    One(L),
    Two(R),
}

impl<L: Values, R: Values> Values for Choice2<L, R> {
    ghost trees = { λ x m. AreEither (λ v. L.trees v m) (λ v. R.trees v m) x };

    ghost writes = { λ x m. WritesEither (λ v. L.writes v m) (λ v. R.writes v m) x };

    fn encoded_len(&self, mode: Mode) -> Result<usize, EncodeError> {
        match self {
            Choice2::One(values) => values.encoded_len(mode),
            Choice2::Two(values) => values.encoded_len(mode),
        }
    }

    fn write_encoded<W: Write>(&self, mode: Mode, target: &mut W) -> Result<(), EncodeError> {
        match self {
            Choice2::One(values) => values.write_encoded(mode, target),
            Choice2::Two(values) => values.write_encoded(mode, target),
        }
    }

    fn write_known<W: Write>(&self, mode: Mode, target: &mut W) -> Result<(), EncodeError> {
        match self {
            Choice2::One(values) => values.write_known(mode, target),
            Choice2::Two(values) => values.write_known(mode, target),
        }
    }

    ghost spelled = { λ x m. either_spelled m (λ v. L.spelled v m) (λ v. R.spelled v m) x };

    ghost one_text = { λ x m. either_one (λ v. L.one_text v m) (λ v. R.one_text v m) x };
}

/// Values of one of three types.
#[derive(Clone, Copy, Debug, PartialEq, Eq, Drop)]
pub enum Choice3<L, C, R> {
    One(L),
    Two(C),
    Three(R),
}

impl<L: Values, C: Values, R: Values> Values for Choice3<L, C, R> {
    ghost trees = { λ x m. AreOneOf (λ v. L.trees v m) (λ v. C.trees v m) (λ v. R.trees v m) x };

    ghost writes = { λ x m. WritesOneOf (λ v. L.writes v m) (λ v. C.writes v m) (λ v. R.writes v m)
        x };

    fn encoded_len(&self, mode: Mode) -> Result<usize, EncodeError> {
        match self {
            Choice3::One(values) => values.encoded_len(mode),
            Choice3::Two(values) => values.encoded_len(mode),
            Choice3::Three(values) => values.encoded_len(mode),
        }
    }

    fn write_encoded<W: Write>(&self, mode: Mode, target: &mut W) -> Result<(), EncodeError> {
        match self {
            Choice3::One(values) => values.write_encoded(mode, target),
            Choice3::Two(values) => values.write_encoded(mode, target),
            Choice3::Three(values) => values.write_encoded(mode, target),
        }
    }

    fn write_known<W: Write>(&self, mode: Mode, target: &mut W) -> Result<(), EncodeError> {
        match self {
            Choice3::One(values) => values.write_known(mode, target),
            Choice3::Two(values) => values.write_known(mode, target),
            Choice3::Three(values) => values.write_known(mode, target),
        }
    }

    ghost spelled = { λ x m. one_of_spelled m (λ v. L.spelled v m) (λ v. C.spelled v m)
        (λ v. R.spelled v m) x };

    ghost one_text = { λ x m. one_of_one (λ v. L.one_text v m) (λ v. C.one_text v m)
        (λ v. R.one_text v m) x };
}
