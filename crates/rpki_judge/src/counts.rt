//! A law of how many publication points are read of a witness.

ghost use Rattle.rpki_judge.specs.Counted.{OneCount};

/// Of a witness so many points are read, and no other number.
pub fn one_count()
    ensures { OneCount }
{}
