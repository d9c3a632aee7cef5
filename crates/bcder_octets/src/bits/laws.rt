//! Laws of bit strings: the contracts of functions that do nothing.

ghost use Rattle.std.specs.Prelude.{◌≡◌};
ghost use Rattle.bcder_octets.specs.bcder_tree.declared.mode.Mode.{Mode as ModeValue};
ghost use Rattle.bcder_octets.specs.Bits.{BitsValue, IsBits, bits};
ghost use Rattle.bcder_octets.specs.BitContents.{padded_in};

/// Padding is no bit: with the padding of any mode, a bit string has the same bits.
pub fn padding_is_no_bit()
    ensures { (m : ModeValue) (v : BitsValue) → IsBits v → bits (padded_in m v) ≡ bits v }
{}
