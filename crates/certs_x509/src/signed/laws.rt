//! Laws of signed data: the contracts of functions that do nothing.

ghost use Rattle.std.specs.Prelude.{◌≢◌, ℕ, List};
ghost use Rattle.certs_x509.specs.bcder_tree.declared.mode.Mode.{Mode as ModeValue};
ghost use Rattle.certs_x509.specs.bcder_tree.declared.mode.Mode.TheVariants.{Ber};
ghost use Rattle.certs_x509.specs.bcder_content.Grammar.{Any, End, One, Then};
ghost use Rattle.certs_x509.specs.bcder_values.KeptForms.{KeepsOne};
ghost use Rattle.certs_x509.specs.bcder_values.Returns.{ReadAgain};
ghost use Rattle.certs_x509.specs.Signed.{SignedDataValue, kept_message, signed, signed_fields};

/// In CER and DER a value is one signed data at most. In BER a value doesn't tell the octets that are signed.
pub fn one_meaning()
    ensures { (m : ModeValue) → m ≢ Ber → One (signed.reads m) }
{}

/// What is written of signed data is read again, where what was signed is one value: with the same octets, algorithm
/// and signature, but for the padding of its bits.
pub fn what_is_written_is_read()
    ensures { (s : SignedDataValue) (m : ModeValue) (text : List ℕ)
        → KeepsOne (λ m. Any) (kept_message s.message) → signed.writes (signed_fields s) m text
        → ReadAgain m (λ ts. Then (signed.reads m) End ts (signed.again m (signed_fields s), tt))
        text }
{}
