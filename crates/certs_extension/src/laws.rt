//! Laws of extensions: the contracts of functions that do nothing.

ghost use Rattle.std.specs.Prelude.{ℕ, List};
ghost use Rattle.certs_extension.specs.bcder_tree.declared.mode.Mode.{Mode as ModeValue};
ghost use Rattle.certs_extension.specs.bcder_content.Grammar.{End, Then};
ghost use Rattle.certs_extension.specs.bcder_values.Returns.{ReadAgain};
ghost use Rattle.certs_extension.specs.declared.forms.KeyUsage.{KeyUsage as Usage};
ghost use Rattle.certs_extension.specs.Usages.{WritesUsage};
ghost use Rattle.certs_extension.specs.Values.{IsUsage};

/// What is written of a key usage is read again as that usage, as the only value, in each mode.
pub fn usage_is_read_again()
    ensures { (u : Usage) (m : ModeValue) (text : List ℕ) → WritesUsage m u text
        → ReadAgain m (λ ts. Then (IsUsage m) End ts (u, tt)) text }
{}
