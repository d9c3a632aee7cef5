//! Laws of what is built: the contracts of functions that do nothing.

ghost use Rattle.std.specs.Prelude.{◌≡◌, ◌≤◌, ℕ, List, true};
ghost use Rattle.objects_written.specs.bcder.Identifiers.{IsIdentifier};
ghost use Rattle.objects_written.specs.certs_basics.HandedIn.{Digests};
ghost use Rattle.objects_written.specs.certs_basics.Verdicts.{Verdicts};
ghost use Rattle.objects_written.specs.objects_payload.Aspas.{AspaText, IsAspa};
ghost use Rattle.objects_written.specs.objects_payload.Identifiers.{manifest, provider_authorization, route_origin};
ghost use Rattle.objects_written.specs.objects_payload.Manifests.{IsManifest, ManifestText};
ghost use Rattle.objects_written.specs.objects_payload.ObjectText.{IsSignedMessage, ObjectText, Sound};
ghost use Rattle.objects_written.specs.objects_payload.Roas.{IsRoa, RoaText};
ghost use Rattle.objects_written.specs.Builders.{BuilderValue, IsBuilt, IsComplete, KindIsRead, built_object};

use certs::again::laws::what_is_built_is_read;

/// A signed object that was built is read again, strictly, as the object that was built: where the type of its content is an
/// object identifier, and its certificate has some kind of resources, IPv4 ones over whole addresses.
pub fn built_objects_are_read_again()
    ensures { (d : Digests) (b : BuilderValue) (kind content octets : List ℕ)
        (x : IsBuilt d b kind content octets) → IsIdentifier kind → IsComplete b
        → ObjectText true octets (built_object x) }
{
    what_is_built_is_read();
}

/// A signed object that was built of the content of a route origin attestation, of a manifest or of a provider attestation, with
/// the type of that kind, is read again, strictly, as one with this content, under the same conditions.
pub fn built_kinds_are_read_again()
    ensures roas { KindIsRead route_origin IsRoa RoaText }
    ensures manifests { KindIsRead manifest IsManifest ManifestText }
    ensures aspas { KindIsRead provider_authorization IsAspa AspaText }
{
    what_is_built_is_read();
}

/// A signed object that was built is sound where it is signed in time, and its signature is good by the key that the signer
/// made: over the attributes as a SET, with the shortest length (RFC 5652 5.4, 5.6; RFC 6488 3).
pub fn built_objects_are_sound()
    ensures { (d : Digests) (v : Verdicts) (b : BuilderValue) (kind content octets : List ℕ)
        (x : IsBuilt d b kind content octets) → b.signing_time ≤ b.not_after
        → (message : List ℕ) → IsSignedMessage (built_object x).signer message
        → v x.key true message (built_object x).signer.signature ≡ true
        → Sound d v (built_object x) }
{}
