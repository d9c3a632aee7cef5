//! Laws of what is counted.

ghost use Rattle.rpki_walk.specs.CostLaws.{CountsAreExact, CountsAreReached};

/// Where the budget ended each number that is listed is reached.
pub fn counts_are_reached()
    ensures { CountsAreReached }
{}

/// Where it sufficed each number is exact, and authorities that aren't listed have no chain below them.
pub fn counts_are_exact()
    ensures { CountsAreExact }
{}
