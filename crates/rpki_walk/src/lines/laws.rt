//! Laws of chains that end alike: the contracts of functions that do nothing.

ghost use Rattle.rpki_walk.specs.Alike.{AlikeTellAlike};

/// Accepted chains that end alike, as far as any key is concerned that is met below one of them, tell the same lines with
/// all that is below them.
pub fn alike_tell_alike()
    ensures { AlikeTellAlike }
{}
