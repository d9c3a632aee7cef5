//! Laws of what is written and signed: the contracts of functions that do nothing.

ghost use Rattle.std.specs.Prelude.{ℕ, List, true};
ghost use Rattle.objects.specs.bcder_content.Texts.{SpellsOf};
ghost use Rattle.objects.specs.bcder_tree.declared.mode.Mode.{Mode as ModeValue};
ghost use Rattle.objects.specs.certs_basics.HandedIn.{Digests};
ghost use Rattle.objects.specs.objects_payload.Aspas.{Aspa, AspaText, IsAspa, IsLawful};
ghost use Rattle.objects_written.specs.Builders.{BuilderValue, built_object};
ghost use Rattle.objects.specs.Attested.{IsAspaFor};
ghost use Rattle.objects.specs.Written.{aspa};

use objects_written::build::laws::built_kinds_are_read_again;

/// What is written of an attestation whose providers are lawful is read again as the same attestation, in each mode.
pub fn attestations_are_read_again()
    ensures { (m : ModeValue) (a : Aspa) (text : List ℕ) → IsLawful a → (aspa a).writes m text
        → SpellsOf m IsAspa text a }
{}

/// A provider attestation that is signed is read again, strictly, as the same attestation, where its providers are lawful.
pub fn signed_aspas_are_read_again()
    ensures { (d : Digests) (b : BuilderValue) (a : Aspa) (octets : List ℕ)
        (x : IsAspaFor d b a octets) → IsLawful a
        → AspaText true octets (built_object x.built) a }
{
    built_kinds_are_read_again();
}
