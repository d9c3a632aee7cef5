//! Laws of attestations: the contracts of functions that do nothing.

ghost use Rattle.objects_cms.specs.bcder_content.Grammar.{One};
ghost use Rattle.objects_cms.specs.bcder_tree.declared.mode.Mode.{Mode as ModeValue};
ghost use Rattle.objects_rta.specs.Attestations.{IsAttestation};

/// A value is one attestation at most.
pub fn one_attestation()
    ensures { (m : ModeValue) → One (IsAttestation m) }
{}
