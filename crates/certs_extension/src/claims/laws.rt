//! Laws of the list of extensions: each is the contract of a function that does nothing.

ghost use Rattle.std.specs.Prelude.{◌≡◌, ◌↔◌, List};
ghost use Rattle.certs_extension.specs.Cert.{TbsValue};
ghost use Rattle.certs_extension.specs.CertText.{HasExtensions};
ghost use Rattle.certs_extension.specs.Extensions.{Extension};
ghost use Rattle.certs_extension.specs.Finishing.{Finishes, claims_of};
ghost use Rattle.certs_extension.specs.Slots.{AreSlots};
ghost use Rattle.certs_extension.specs.declared.claims.slots.Slots.{Slots};

/// A list of extensions has slots in one way at most.
pub fn one_slots()
    ensures { (all : List Extension) (s t : Slots) → AreSlots all s → AreSlots all t → s ≡ t }
{}

/// Extensions are those of a certificate exactly where they have slots that mean what it claims.
pub fn extensions_by_slots()
    ensures { (all : List Extension) (c : TbsValue) →
        HasExtensions all c ↔ ((s : Slots) × AreSlots all s × Finishes s (claims_of c)) }
{}
