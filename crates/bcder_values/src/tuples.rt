//! Values one after the other.

ghost use Rattle.bcder_values.specs.bcder_primitive.Encoded.{AreBoth, WritesBoth};
ghost use Rattle.bcder_values.specs.Laws.{both_spelled, both_one};

use crate::bcder_tree::Mode;
use crate::{EncodeError, Values};
use std::io::Write;

/// Values alone.
impl<A: Values> Values for (A,) {
    ghost trees = { λ x m. A.trees x.0 m };

    ghost writes = { λ x m. A.writes x.0 m };

    fn encoded_len(&self, mode: Mode) -> Result<usize, EncodeError> {
        self.0.encoded_len(mode)
    }

    fn write_encoded<W: Write>(&self, mode: Mode, target: &mut W) -> Result<(), EncodeError> {
        self.0.write_encoded(mode, target)
    }

    fn write_known<W: Write>(&self, mode: Mode, target: &mut W) -> Result<(), EncodeError> {
        self.0.write_known(mode, target)
    }

    ghost spelled = { λ x m. A.spelled x.0 m };

    ghost one_text = { λ x m. A.one_text x.0 m };
}

/// Values, and others after them.
impl<A: Values, B: Values> Values for (A, B) {
    ghost trees = { λ x m. AreBoth (A.trees x.0 m) (B.trees x.1 m) };

    ghost writes = { λ x m. WritesBoth (A.writes x.0 m) (B.writes x.1 m) };

    fn encoded_len(&self, mode: Mode) -> Result<usize, EncodeError> {
        let first = self.0.encoded_len(mode)?;
        let second = self.1.encoded_len(mode)?;
        match first.checked_add(second) {
            Some(sum) => Ok(sum),
            None => Err(EncodeError::TooLong),
        }
    }

    fn write_encoded<W: Write>(&self, mode: Mode, target: &mut W) -> Result<(), EncodeError> {
        (*self).encoded_len(mode)?;
        (*self).write_known(mode, target)
    }

    fn write_known<W: Write>(&self, mode: Mode, target: &mut W) -> Result<(), EncodeError> {
        self.0.write_known(mode, target)?;
        self.1.write_known(mode, target)
    }

    ghost spelled = { λ x m text w. both_spelled m (A.spelled x.0 m) (B.spelled x.1 m) text w };

    ghost one_text = { λ x m a b. both_one (A.one_text x.0 m) (B.one_text x.1 m) a b };
}

// Of three to twelve parts: the first, and after it the others, as a tuple of one part less.

impl<A: Values, B: Values, C: Values> Values for (A, B, C) {
    ghost trees = { λ x m. AreBoth (A.trees x.0 m) (AreBoth (B.trees x.1 m) (C.trees x.2 m)) };

    ghost writes = { λ x m. WritesBoth (A.writes x.0 m)
        (WritesBoth (B.writes x.1 m) (C.writes x.2 m)) };

    fn encoded_len(&self, mode: Mode) -> Result<usize, EncodeError> {
        (&self.0, (&self.1, &self.2)).encoded_len(mode)
    }

    fn write_encoded<W: Write>(&self, mode: Mode, target: &mut W) -> Result<(), EncodeError> {
        (&self.0, (&self.1, &self.2)).write_encoded(mode, target)
    }

    fn write_known<W: Write>(&self, mode: Mode, target: &mut W) -> Result<(), EncodeError> {
        (&self.0, (&self.1, &self.2)).write_known(mode, target)
    }

    ghost spelled = { λ x m. both_spelled m (A.spelled x.0 m)
        (both_spelled m (B.spelled x.1 m) (C.spelled x.2 m)) };

    ghost one_text = { λ x m. both_one (A.one_text x.0 m)
        (both_one (B.one_text x.1 m) (C.one_text x.2 m)) };
}

impl<A: Values, B: Values, C: Values, D: Values> Values for (A, B, C, D) {
    ghost trees = { λ x m. AreBoth (A.trees x.0 m)
        (AreBoth (B.trees x.1 m) (AreBoth (C.trees x.2 m) (D.trees x.3 m))) };

    ghost writes = { λ x m. WritesBoth (A.writes x.0 m)
        (WritesBoth (B.writes x.1 m) (WritesBoth (C.writes x.2 m) (D.writes x.3 m))) };

    fn encoded_len(&self, mode: Mode) -> Result<usize, EncodeError> {
        (&self.0, (&self.1, &self.2, &self.3)).encoded_len(mode)
    }

    fn write_encoded<W: Write>(&self, mode: Mode, target: &mut W) -> Result<(), EncodeError> {
        (&self.0, (&self.1, &self.2, &self.3)).write_encoded(mode, target)
    }

    fn write_known<W: Write>(&self, mode: Mode, target: &mut W) -> Result<(), EncodeError> {
        (&self.0, (&self.1, &self.2, &self.3)).write_known(mode, target)
    }

    ghost spelled = { λ x m. both_spelled m (A.spelled x.0 m)
        (both_spelled m (B.spelled x.1 m) (both_spelled m (C.spelled x.2 m) (D.spelled x.3 m))) };

    ghost one_text = { λ x m. both_one (A.one_text x.0 m)
        (both_one (B.one_text x.1 m) (both_one (C.one_text x.2 m) (D.one_text x.3 m))) };
}

impl<A: Values, B: Values, C: Values, D: Values, E: Values> Values for (A, B, C, D, E) {
    ghost trees = { λ x m. AreBoth (A.trees x.0 m)
        (AreBoth (B.trees x.1 m)
        (AreBoth (C.trees x.2 m) (AreBoth (D.trees x.3 m) (E.trees x.4 m)))) };

    ghost writes = { λ x m. WritesBoth (A.writes x.0 m)
        (WritesBoth (B.writes x.1 m)
        (WritesBoth (C.writes x.2 m) (WritesBoth (D.writes x.3 m) (E.writes x.4 m)))) };

    fn encoded_len(&self, mode: Mode) -> Result<usize, EncodeError> {
        (&self.0, (&self.1, &self.2, &self.3, &self.4)).encoded_len(mode)
    }

    fn write_encoded<W: Write>(&self, mode: Mode, target: &mut W) -> Result<(), EncodeError> {
        (&self.0, (&self.1, &self.2, &self.3, &self.4)).write_encoded(mode, target)
    }

    fn write_known<W: Write>(&self, mode: Mode, target: &mut W) -> Result<(), EncodeError> {
        (&self.0, (&self.1, &self.2, &self.3, &self.4)).write_known(mode, target)
    }

    ghost spelled = { λ x m. both_spelled m (A.spelled x.0 m)
        (both_spelled m (B.spelled x.1 m)
        (both_spelled m (C.spelled x.2 m) (both_spelled m (D.spelled x.3 m) (E.spelled x.4 m)))) };

    ghost one_text = { λ x m. both_one (A.one_text x.0 m)
        (both_one (B.one_text x.1 m)
        (both_one (C.one_text x.2 m) (both_one (D.one_text x.3 m) (E.one_text x.4 m)))) };
}

impl<A: Values, B: Values, C: Values, D: Values, E: Values, F: Values> Values
    for (A, B, C, D, E, F) {
    ghost trees = { λ x m. AreBoth (A.trees x.0 m)
        (AreBoth (B.trees x.1 m)
        (AreBoth (C.trees x.2 m)
        (AreBoth (D.trees x.3 m) (AreBoth (E.trees x.4 m) (F.trees x.5 m))))) };

    ghost writes = { λ x m. WritesBoth (A.writes x.0 m)
        (WritesBoth (B.writes x.1 m)
        (WritesBoth (C.writes x.2 m)
        (WritesBoth (D.writes x.3 m) (WritesBoth (E.writes x.4 m) (F.writes x.5 m))))) };

    fn encoded_len(&self, mode: Mode) -> Result<usize, EncodeError> {
        (&self.0, (&self.1, &self.2, &self.3, &self.4, &self.5)).encoded_len(mode)
    }

    fn write_encoded<W: Write>(&self, mode: Mode, target: &mut W) -> Result<(), EncodeError> {
        (&self.0, (&self.1, &self.2, &self.3, &self.4, &self.5)).write_encoded(mode, target)
    }

    fn write_known<W: Write>(&self, mode: Mode, target: &mut W) -> Result<(), EncodeError> {
        (&self.0, (&self.1, &self.2, &self.3, &self.4, &self.5)).write_known(mode, target)
    }

    ghost spelled = { λ x m. both_spelled m (A.spelled x.0 m)
        (both_spelled m (B.spelled x.1 m)
        (both_spelled m (C.spelled x.2 m)
        (both_spelled m (D.spelled x.3 m) (both_spelled m (E.spelled x.4 m) (F.spelled x.5 m))))) };

    ghost one_text = { λ x m. both_one (A.one_text x.0 m)
        (both_one (B.one_text x.1 m)
        (both_one (C.one_text x.2 m)
        (both_one (D.one_text x.3 m) (both_one (E.one_text x.4 m) (F.one_text x.5 m))))) };
}

impl<A: Values, B: Values, C: Values, D: Values, E: Values, F: Values, G: Values> Values
    for (A, B, C, D, E, F, G) {
    ghost trees = { λ x m. AreBoth (A.trees x.0 m)
        (AreBoth (B.trees x.1 m)
        (AreBoth (C.trees x.2 m)
        (AreBoth (D.trees x.3 m)
        (AreBoth (E.trees x.4 m) (AreBoth (F.trees x.5 m) (G.trees x.6 m)))))) };

    ghost writes = { λ x m. WritesBoth (A.writes x.0 m)
        (WritesBoth (B.writes x.1 m)
        (WritesBoth (C.writes x.2 m)
        (WritesBoth (D.writes x.3 m)
        (WritesBoth (E.writes x.4 m) (WritesBoth (F.writes x.5 m) (G.writes x.6 m)))))) };

    fn encoded_len(&self, mode: Mode) -> Result<usize, EncodeError> {
        (
            &self.0,
            (&self.1, &self.2, &self.3, &self.4, &self.5, &self.6),
        )
            .encoded_len(mode)
    }

    fn write_encoded<W: Write>(&self, mode: Mode, target: &mut W) -> Result<(), EncodeError> {
        (
            &self.0,
            (&self.1, &self.2, &self.3, &self.4, &self.5, &self.6),
        )
            .write_encoded(mode, target)
    }

    fn write_known<W: Write>(&self, mode: Mode, target: &mut W) -> Result<(), EncodeError> {
        (
            &self.0,
            (&self.1, &self.2, &self.3, &self.4, &self.5, &self.6),
        )
            .write_known(mode, target)
    }

    ghost spelled = { λ x m. both_spelled m (A.spelled x.0 m)
        (both_spelled m (B.spelled x.1 m)
        (both_spelled m (C.spelled x.2 m)
        (both_spelled m (D.spelled x.3 m)
        (both_spelled m (E.spelled x.4 m)
        (both_spelled m (F.spelled x.5 m) (G.spelled x.6 m)))))) };

    ghost one_text = { λ x m. both_one (A.one_text x.0 m)
        (both_one (B.one_text x.1 m)
        (both_one (C.one_text x.2 m)
        (both_one (D.one_text x.3 m)
        (both_one (E.one_text x.4 m) (both_one (F.one_text x.5 m) (G.one_text x.6 m)))))) };
}

impl<A: Values, B: Values, C: Values, D: Values, E: Values, F: Values, G: Values, H: Values> Values
    for (A, B, C, D, E, F, G, H) {
    ghost trees = { λ x m. AreBoth (A.trees x.0 m)
        (AreBoth (B.trees x.1 m)
        (AreBoth (C.trees x.2 m)
        (AreBoth (D.trees x.3 m)
        (AreBoth (E.trees x.4 m)
        (AreBoth (F.trees x.5 m) (AreBoth (G.trees x.6 m) (H.trees x.7 m))))))) };

    ghost writes = { λ x m. WritesBoth (A.writes x.0 m)
        (WritesBoth (B.writes x.1 m)
        (WritesBoth (C.writes x.2 m)
        (WritesBoth (D.writes x.3 m)
        (WritesBoth (E.writes x.4 m)
        (WritesBoth (F.writes x.5 m) (WritesBoth (G.writes x.6 m) (H.writes x.7 m))))))) };

    fn encoded_len(&self, mode: Mode) -> Result<usize, EncodeError> {
        (
            &self.0,
            (
                &self.1, &self.2, &self.3, &self.4, &self.5, &self.6, &self.7,
            ),
        )
            .encoded_len(mode)
    }

    fn write_encoded<W: Write>(&self, mode: Mode, target: &mut W) -> Result<(), EncodeError> {
        (
            &self.0,
            (
                &self.1, &self.2, &self.3, &self.4, &self.5, &self.6, &self.7,
            ),
        )
            .write_encoded(mode, target)
    }

    fn write_known<W: Write>(&self, mode: Mode, target: &mut W) -> Result<(), EncodeError> {
        (
            &self.0,
            (
                &self.1, &self.2, &self.3, &self.4, &self.5, &self.6, &self.7,
            ),
        )
            .write_known(mode, target)
    }

    ghost spelled = { λ x m. both_spelled m (A.spelled x.0 m)
        (both_spelled m (B.spelled x.1 m)
        (both_spelled m (C.spelled x.2 m)
        (both_spelled m (D.spelled x.3 m)
        (both_spelled m (E.spelled x.4 m)
        (both_spelled m (F.spelled x.5 m)
        (both_spelled m (G.spelled x.6 m) (H.spelled x.7 m))))))) };

    ghost one_text = { λ x m. both_one (A.one_text x.0 m)
        (both_one (B.one_text x.1 m)
        (both_one (C.one_text x.2 m)
        (both_one (D.one_text x.3 m)
        (both_one (E.one_text x.4 m)
        (both_one (F.one_text x.5 m) (both_one (G.one_text x.6 m) (H.one_text x.7 m))))))) };
}

impl<
    A: Values,
    B: Values,
    C: Values,
    D: Values,
    E: Values,
    F: Values,
    G: Values,
    H: Values,
    I: Values,
> Values for (A, B, C, D, E, F, G, H, I) {
    ghost trees = { λ x m. AreBoth (A.trees x.0 m)
        (AreBoth (B.trees x.1 m)
        (AreBoth (C.trees x.2 m)
        (AreBoth (D.trees x.3 m)
        (AreBoth (E.trees x.4 m)
        (AreBoth (F.trees x.5 m)
        (AreBoth (G.trees x.6 m) (AreBoth (H.trees x.7 m) (I.trees x.8 m)))))))) };

    ghost writes = { λ x m. WritesBoth (A.writes x.0 m)
        (WritesBoth (B.writes x.1 m)
        (WritesBoth (C.writes x.2 m)
        (WritesBoth (D.writes x.3 m)
        (WritesBoth (E.writes x.4 m)
        (WritesBoth (F.writes x.5 m)
        (WritesBoth (G.writes x.6 m) (WritesBoth (H.writes x.7 m) (I.writes x.8 m)))))))) };

    fn encoded_len(&self, mode: Mode) -> Result<usize, EncodeError> {
        (
            &self.0,
            (
                &self.1, &self.2, &self.3, &self.4, &self.5, &self.6, &self.7, &self.8,
            ),
        )
            .encoded_len(mode)
    }

    fn write_encoded<W: Write>(&self, mode: Mode, target: &mut W) -> Result<(), EncodeError> {
        (
            &self.0,
            (
                &self.1, &self.2, &self.3, &self.4, &self.5, &self.6, &self.7, &self.8,
            ),
        )
            .write_encoded(mode, target)
    }

    fn write_known<W: Write>(&self, mode: Mode, target: &mut W) -> Result<(), EncodeError> {
        (
            &self.0,
            (
                &self.1, &self.2, &self.3, &self.4, &self.5, &self.6, &self.7, &self.8,
            ),
        )
            .write_known(mode, target)
    }

    ghost spelled = { λ x m. both_spelled m (A.spelled x.0 m)
        (both_spelled m (B.spelled x.1 m)
        (both_spelled m (C.spelled x.2 m)
        (both_spelled m (D.spelled x.3 m)
        (both_spelled m (E.spelled x.4 m)
        (both_spelled m (F.spelled x.5 m)
        (both_spelled m (G.spelled x.6 m)
        (both_spelled m (H.spelled x.7 m) (I.spelled x.8 m)))))))) };

    ghost one_text = { λ x m. both_one (A.one_text x.0 m)
        (both_one (B.one_text x.1 m)
        (both_one (C.one_text x.2 m)
        (both_one (D.one_text x.3 m)
        (both_one (E.one_text x.4 m)
        (both_one (F.one_text x.5 m)
        (both_one (G.one_text x.6 m) (both_one (H.one_text x.7 m) (I.one_text x.8 m)))))))) };
}

impl<
    A: Values,
    B: Values,
    C: Values,
    D: Values,
    E: Values,
    F: Values,
    G: Values,
    H: Values,
    I: Values,
    J: Values,
> Values for (A, B, C, D, E, F, G, H, I, J) {
    ghost trees = { λ x m. AreBoth (A.trees x.0 m)
        (AreBoth (B.trees x.1 m)
        (AreBoth (C.trees x.2 m)
        (AreBoth (D.trees x.3 m)
        (AreBoth (E.trees x.4 m)
        (AreBoth (F.trees x.5 m)
        (AreBoth (G.trees x.6 m)
        (AreBoth (H.trees x.7 m) (AreBoth (I.trees x.8 m) (J.trees x.9 m))))))))) };

    ghost writes = { λ x m. WritesBoth (A.writes x.0 m)
        (WritesBoth (B.writes x.1 m)
        (WritesBoth (C.writes x.2 m)
        (WritesBoth (D.writes x.3 m)
        (WritesBoth (E.writes x.4 m)
        (WritesBoth (F.writes x.5 m)
        (WritesBoth (G.writes x.6 m)
        (WritesBoth (H.writes x.7 m) (WritesBoth (I.writes x.8 m) (J.writes x.9 m))))))))) };

    fn encoded_len(&self, mode: Mode) -> Result<usize, EncodeError> {
        (
            &self.0,
            (
                &self.1, &self.2, &self.3, &self.4, &self.5, &self.6, &self.7, &self.8, &self.9,
            ),
        )
            .encoded_len(mode)
    }

    fn write_encoded<W: Write>(&self, mode: Mode, target: &mut W) -> Result<(), EncodeError> {
        (
            &self.0,
            (
                &self.1, &self.2, &self.3, &self.4, &self.5, &self.6, &self.7, &self.8, &self.9,
            ),
        )
            .write_encoded(mode, target)
    }

    fn write_known<W: Write>(&self, mode: Mode, target: &mut W) -> Result<(), EncodeError> {
        (
            &self.0,
            (
                &self.1, &self.2, &self.3, &self.4, &self.5, &self.6, &self.7, &self.8, &self.9,
            ),
        )
            .write_known(mode, target)
    }

    ghost spelled = { λ x m. both_spelled m (A.spelled x.0 m)
        (both_spelled m (B.spelled x.1 m)
        (both_spelled m (C.spelled x.2 m)
        (both_spelled m (D.spelled x.3 m)
        (both_spelled m (E.spelled x.4 m)
        (both_spelled m (F.spelled x.5 m)
        (both_spelled m (G.spelled x.6 m)
        (both_spelled m (H.spelled x.7 m)
        (both_spelled m (I.spelled x.8 m) (J.spelled x.9 m))))))))) };

    ghost one_text = { λ x m. both_one (A.one_text x.0 m)
        (both_one (B.one_text x.1 m)
        (both_one (C.one_text x.2 m)
        (both_one (D.one_text x.3 m)
        (both_one (E.one_text x.4 m)
        (both_one (F.one_text x.5 m)
        (both_one (G.one_text x.6 m)
        (both_one (H.one_text x.7 m) (both_one (I.one_text x.8 m) (J.one_text x.9 m))))))))) };
}

impl<
    A: Values,
    B: Values,
    C: Values,
    D: Values,
    E: Values,
    F: Values,
    G: Values,
    H: Values,
    I: Values,
    J: Values,
    K: Values,
> Values for (A, B, C, D, E, F, G, H, I, J, K) {
    ghost trees = { λ x m. AreBoth (A.trees x.0 m)
        (AreBoth (B.trees x.1 m)
        (AreBoth (C.trees x.2 m)
        (AreBoth (D.trees x.3 m)
        (AreBoth (E.trees x.4 m)
        (AreBoth (F.trees x.5 m)
        (AreBoth (G.trees x.6 m)
        (AreBoth (H.trees x.7 m)
        (AreBoth (I.trees x.8 m) (AreBoth (J.trees x.9 m) (K.trees x.10 m)))))))))) };

    ghost writes = { λ x m. WritesBoth (A.writes x.0 m)
        (WritesBoth (B.writes x.1 m)
        (WritesBoth (C.writes x.2 m)
        (WritesBoth (D.writes x.3 m)
        (WritesBoth (E.writes x.4 m)
        (WritesBoth (F.writes x.5 m)
        (WritesBoth (G.writes x.6 m)
        (WritesBoth (H.writes x.7 m)
        (WritesBoth (I.writes x.8 m) (WritesBoth (J.writes x.9 m) (K.writes x.10 m)))))))))) };

    fn encoded_len(&self, mode: Mode) -> Result<usize, EncodeError> {
        (
            &self.0,
            (
                &self.1, &self.2, &self.3, &self.4, &self.5, &self.6, &self.7, &self.8, &self.9,
                &self.10,
            ),
        )
            .encoded_len(mode)
    }

    fn write_encoded<W: Write>(&self, mode: Mode, target: &mut W) -> Result<(), EncodeError> {
        (
            &self.0,
            (
                &self.1, &self.2, &self.3, &self.4, &self.5, &self.6, &self.7, &self.8, &self.9,
                &self.10,
            ),
        )
            .write_encoded(mode, target)
    }

    fn write_known<W: Write>(&self, mode: Mode, target: &mut W) -> Result<(), EncodeError> {
        (
            &self.0,
            (
                &self.1, &self.2, &self.3, &self.4, &self.5, &self.6, &self.7, &self.8, &self.9,
                &self.10,
            ),
        )
            .write_known(mode, target)
    }

    ghost spelled = { λ x m. both_spelled m (A.spelled x.0 m)
        (both_spelled m (B.spelled x.1 m)
        (both_spelled m (C.spelled x.2 m)
        (both_spelled m (D.spelled x.3 m)
        (both_spelled m (E.spelled x.4 m)
        (both_spelled m (F.spelled x.5 m)
        (both_spelled m (G.spelled x.6 m)
        (both_spelled m (H.spelled x.7 m)
        (both_spelled m (I.spelled x.8 m)
        (both_spelled m (J.spelled x.9 m) (K.spelled x.10 m)))))))))) };

    ghost one_text = { λ x m. both_one (A.one_text x.0 m)
        (both_one (B.one_text x.1 m)
        (both_one (C.one_text x.2 m)
        (both_one (D.one_text x.3 m)
        (both_one (E.one_text x.4 m)
        (both_one (F.one_text x.5 m)
        (both_one (G.one_text x.6 m)
        (both_one (H.one_text x.7 m)
        (both_one (I.one_text x.8 m) (both_one (J.one_text x.9 m) (K.one_text x.10 m)))))))))) };
}

impl<
    A: Values,
    B: Values,
    C: Values,
    D: Values,
    E: Values,
    F: Values,
    G: Values,
    H: Values,
    I: Values,
    J: Values,
    K: Values,
    L: Values,
> Values for (A, B, C, D, E, F, G, H, I, J, K, L) {
    ghost trees = { λ x m. AreBoth (A.trees x.0 m)
        (AreBoth (B.trees x.1 m)
        (AreBoth (C.trees x.2 m)
        (AreBoth (D.trees x.3 m)
        (AreBoth (E.trees x.4 m)
        (AreBoth (F.trees x.5 m)
        (AreBoth (G.trees x.6 m)
        (AreBoth (H.trees x.7 m)
        (AreBoth (I.trees x.8 m)
        (AreBoth (J.trees x.9 m) (AreBoth (K.trees x.10 m) (L.trees x.11 m))))))))))) };

    ghost writes = { λ x m. WritesBoth (A.writes x.0 m)
        (WritesBoth (B.writes x.1 m)
        (WritesBoth (C.writes x.2 m)
        (WritesBoth (D.writes x.3 m)
        (WritesBoth (E.writes x.4 m)
        (WritesBoth (F.writes x.5 m)
        (WritesBoth (G.writes x.6 m)
        (WritesBoth (H.writes x.7 m)
        (WritesBoth (I.writes x.8 m)
        (WritesBoth (J.writes x.9 m) (WritesBoth (K.writes x.10 m) (L.writes x.11 m))))))))))) };

    fn encoded_len(&self, mode: Mode) -> Result<usize, EncodeError> {
        (
            &self.0,
            (
                &self.1, &self.2, &self.3, &self.4, &self.5, &self.6, &self.7, &self.8, &self.9,
                &self.10, &self.11,
            ),
        )
            .encoded_len(mode)
    }

    fn write_encoded<W: Write>(&self, mode: Mode, target: &mut W) -> Result<(), EncodeError> {
        (
            &self.0,
            (
                &self.1, &self.2, &self.3, &self.4, &self.5, &self.6, &self.7, &self.8, &self.9,
                &self.10, &self.11,
            ),
        )
            .write_encoded(mode, target)
    }

    fn write_known<W: Write>(&self, mode: Mode, target: &mut W) -> Result<(), EncodeError> {
        (
            &self.0,
            (
                &self.1, &self.2, &self.3, &self.4, &self.5, &self.6, &self.7, &self.8, &self.9,
                &self.10, &self.11,
            ),
        )
            .write_known(mode, target)
    }

    ghost spelled = { λ x m. both_spelled m (A.spelled x.0 m)
        (both_spelled m (B.spelled x.1 m)
        (both_spelled m (C.spelled x.2 m)
        (both_spelled m (D.spelled x.3 m)
        (both_spelled m (E.spelled x.4 m)
        (both_spelled m (F.spelled x.5 m)
        (both_spelled m (G.spelled x.6 m)
        (both_spelled m (H.spelled x.7 m)
        (both_spelled m (I.spelled x.8 m)
        (both_spelled m (J.spelled x.9 m)
        (both_spelled m (K.spelled x.10 m) (L.spelled x.11 m))))))))))) };

    ghost one_text = { λ x m. both_one (A.one_text x.0 m)
        (both_one (B.one_text x.1 m)
        (both_one (C.one_text x.2 m)
        (both_one (D.one_text x.3 m)
        (both_one (E.one_text x.4 m)
        (both_one (F.one_text x.5 m)
        (both_one (G.one_text x.6 m)
        (both_one (H.one_text x.7 m)
        (both_one (I.one_text x.8 m)
        (both_one (J.one_text x.9 m) (both_one (K.one_text x.10 m) (L.one_text x.11 m))))))))))) };
}
