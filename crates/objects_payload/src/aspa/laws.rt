//! Laws of provider attestations: the contracts of functions that do nothing.

ghost use Rattle.objects_payload.specs.Aspas.{IsAspa};
ghost use Rattle.objects_payload.specs.bcder_content.Grammar.{One};

/// A value is one attestation at most.
pub fn one_attestation()
    ensures { One IsAspa }
{}
