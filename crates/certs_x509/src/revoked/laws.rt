//! Laws of entries: the contracts of functions that do nothing.

ghost use Rattle.std.specs.Prelude.{◌<◌, ◌^◌, ℕ, List};
ghost use Rattle.certs_extension.specs.CrlText.{IsRevoked, RevokedValue};
ghost use Rattle.certs_x509.specs.bcder_tree.declared.mode.Mode.{Mode as ModeValue};
ghost use Rattle.certs_x509.specs.bcder_tree.Tags.{TagValue};
ghost use Rattle.certs_x509.specs.bcder_tree.Tree.{primitive};
ghost use Rattle.certs_x509.specs.bcder_content.Grammar.{End, One, Then};
ghost use Rattle.certs_x509.specs.bcder_values.Returns.{ReadAgain};
ghost use Rattle.certs_x509.specs.certs_basics.Forms.{WritesTime};
ghost use Rattle.certs_x509.specs.Written.{WritesEntry};

/// A value is one entry at most.
pub fn one_entry()
    ensures { One IsRevoked }
{}

/// What is written of an entry is read again as that entry, in each mode.
pub fn entries_are_read_again()
    ensures { (e : RevokedValue) (tag : TagValue) (content : List ℕ) (m : ModeValue) (text : List ℕ)
        → e.serial < 2 ^ 160 → WritesTime e.time (primitive tag content)
        → WritesEntry e tag content m text
        → ReadAgain m (λ ts. Then IsRevoked End ts (e, tt)) text }
{}
