//! Laws of serial numbers and names: the contracts of functions that do nothing.

ghost use Rattle.std.specs.Prelude.{◌≡◌, ◌↔◌, ◌<◌, ◌^◌, ℕ, All, Bool, IsTrue, List};
ghost use Rattle.std.specs.declared.cmp.Ordering.TheVariants.{Equal};
ghost use Rattle.certs_name.specs.bcder_tree.declared.mode.Mode.{Mode as ModeValue};
ghost use Rattle.certs_name.specs.bcder_tree.declared.mode.Mode.TheVariants.{Der};
ghost use Rattle.certs_name.specs.bcder_tree.Tags.{integer_tag};
ghost use Rattle.certs_name.specs.bcder_tree.Tree.{Spells};
ghost use Rattle.certs_name.specs.bcder_content.Grammar.{End, One, Then};
ghost use Rattle.certs_name.specs.bcder_content.Kept.{CapturedValue};
ghost use Rattle.certs_name.specs.bcder_number.Integers.{IsNatural};
ghost use Rattle.certs_name.specs.bcder_primitive.Encoded.{WritesPlain};
ghost use Rattle.certs_name.specs.bcder_values.Captures.{CapturedText};
ghost use Rattle.certs_name.specs.bcder_values.Returns.{ReadAgain};
ghost use Rattle.certs_basics.specs.Basics.{IsSerial, IsSmallEnough};
ghost use Rattle.certs_basics.specs.Names.{Attribute, IsKeptName, IsRpkiName, NameSays, subject_of};
ghost use Rattle.certs_name.specs.Named.{IsNamed};

use crate::name::Name;
use crate::serial::Serial;
use std::hash::Hash;

/// The order of serial numbers agrees with their equality, and so do hashes.
pub fn order_and_hash_agree_with_equality()
    ensures order { (a b : ℕ) → (⟦<Serial as Ord>⟧.cmp a b ≡ Equal) ↔ (a ≡ b) }
    ensures hash { (a b : ℕ) → a ≡ b
        → ⟦<Serial as Hash>⟧.hash_input a ≡ ⟦<Serial as Hash>⟧.hash_input b }
{}

/// A value is one serial number at most.
pub fn one_serial()
    ensures { One IsSerial }
{}

/// A serial number is below 2^160, however it was made (RFC 5280 4.1.2.2).
pub fn serials_are_small(serial: Serial)
    ensures { IsSmallEnough serial }
{
    let _halves = serial.halves();
}

/// What is written of a serial number is read again as that number, in each mode.
pub fn serials_are_read_again()
    ensures { (n : ℕ) (m : ModeValue) (text : List ℕ) → n < 2 ^ 160
        → WritesPlain m integer_tag (λ content. IsNatural content n) text
        → ReadAgain m (λ ts. Then IsSerial End ts (n, tt)) text }
{}

/// What is written of a name is the name again, in each mode in which it can be written: it is read with the octets that
/// were written, and inspection passes it where it passes the name.
pub fn names_are_read_again()
    ensures read { (name : CapturedValue) (m : ModeValue) (text : List ℕ) → IsNamed name
        → CapturedText name m text
        → ReadAgain m (λ ts. Then (IsKeptName m) End ts (record { mode = m; octets = text }, tt))
        text }
    ensures inspected { (name : CapturedValue) (m : ModeValue) (text : List ℕ) (strict : Bool)
        → CapturedText name m text → IsRpkiName strict name
        → IsRpkiName strict (record { mode = m; octets = text }) }
{}

/// The name that is made from the identifier of a key passes inspection, strict or not.
pub fn key_names_pass_inspection()
    ensures { (identifier octets : List ℕ) (strict : Bool) → All (λ a. a < 256) identifier
        → Spells Der (subject_of identifier) octets
        → IsRpkiName strict (record { mode = Der; octets = octets }) }
{}

/// Names are equal where their octets are; equal names say the same attributes, whatever their modes.
pub fn name_equality()
    ensures octets { (a b : CapturedValue) → IsTrue (⟦<Name as PartialEq>⟧.eq a b)
        ↔ (a.octets ≡ b.octets) }
    ensures attributes { (a b : CapturedValue) (all : List Attribute) → IsNamed b
        → IsTrue (⟦<Name as PartialEq>⟧.eq a b) → NameSays a all → NameSays b all }
{}
