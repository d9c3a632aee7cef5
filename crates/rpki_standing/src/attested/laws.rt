//! Laws of readings: the contracts of functions that do nothing.

ghost use Rattle.std.specs.Prelude.{◌≡◌, List, ℕ};
ghost use Rattle.rpki_rules.specs.Objects.{Object};
ghost use Rattle.rpki_rules.specs.Attests.{Payload};
ghost use Rattle.rpki_rules.specs.World.{World};
ghost use Rattle.rpki_rules.specs.FileReasons.{HasPayload};

/// The object with a lookup key reads as one thing at most.
pub fn one_reading()
    ensures object { (w : World) (uri : List ℕ) (o p : Object) (x y : Payload)
        → HasPayload w uri o x → HasPayload w uri p y → o ≡ p }
    ensures payload { (w : World) (uri : List ℕ) (o p : Object) (x y : Payload)
        → HasPayload w uri o x → HasPayload w uri p y → x ≡ y }
{}
