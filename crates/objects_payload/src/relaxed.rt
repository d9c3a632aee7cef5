//! Laws of strict and relaxed reading: signed objects that are read strictly, in DER (X.690 10), are read relaxed, in BER
//! (X.690 8), with the same fields, and are tested alike. They are the contracts of functions that do nothing.
//!
//! A value that is read keeps no mode but in its certificate: what is signed there, and two names, are kept as octets with
//! the mode in which they stand. So an object read relaxed, `relaxed`, is the one read strictly with this mode changed, and
//! nothing else.

ghost use Rattle.objects_payload.specs.bcder_tree.Tags.{TagValue};
ghost use Rattle.objects_payload.specs.bcder_tree.Strings.{IsString};
ghost use Rattle.objects_payload.specs.bcder_primitive.Values.{IsBoolean};
ghost use Rattle.objects_payload.specs.bcder_octets.BitContents.{IsBitString};
ghost use Rattle.objects_payload.specs.certs_basics.Keys.{IsKey};
ghost use Rattle.objects_payload.specs.certs_extension.Extensions.{IsExtension};
ghost use Rattle.objects_payload.specs.SignedAttributes.{AreAttributes};
ghost use Rattle.objects_payload.specs.ObjectText.{SpellsSigner};
ghost use Rattle.objects_payload.specs.Manifests.{ManifestText};
ghost use Rattle.objects_payload.specs.Roas.{RoaText};
ghost use Rattle.objects_payload.specs.Aspas.{AspaText};
ghost use Rattle.objects_payload.specs.Forms.{KeepsInBer};
ghost use Rattle.objects_payload.specs.RelaxedLaws.{CertsStay, InspectedAlike, NamesAlike, NamesStay, ObjectsStay, ObjectsStayAlone, SoundAlike, Stays, StaysAlone};

/// What signed objects are made of means in BER what it means in DER: strings of octets under any tag, bit strings,
/// BOOLEANs, extensions, keys, attributes and signers.
pub fn forms_are_kept()
    ensures strings { (tag : TagValue) → KeepsInBer (λ m. IsString m tag) }
    ensures bits { KeepsInBer IsBitString }
    ensures booleans { KeepsInBer IsBoolean }
    ensures extensions { KeepsInBer IsExtension }
    ensures keys { KeepsInBer IsKey }
    ensures attributes { KeepsInBer AreAttributes }
    ensures signers { KeepsInBer SpellsSigner }
{}

/// What spells a name in DER, or a certificate, spells the same in BER, which is kept in BER.
pub fn names_and_certs_stay()
    ensures names { NamesStay }
    ensures certs { CertsStay }
{}

/// What is read strictly as a signed object is read relaxed, with the same fields, and as nothing else.
pub fn objects_stay()
    ensures stay { ObjectsStay }
    ensures alone { ObjectsStayAlone }
{}

/// What is read strictly as a manifest is read relaxed, with the same fields and content, and as nothing else.
pub fn manifests_stay()
    ensures stay { Stays ManifestText }
    ensures alone { StaysAlone ManifestText }
{}

/// What is read strictly as a route origin attestation is read relaxed, with the same fields and content, and as nothing
/// else.
pub fn roas_stay()
    ensures stay { Stays RoaText }
    ensures alone { StaysAlone RoaText }
{}

/// What is read strictly as a provider attestation is read relaxed, with the same fields and content, and as nothing else.
pub fn aspas_stay()
    ensures stay { Stays AspaText }
    ensures alone { StaysAlone AspaText }
{}

/// Inspection answers alike of what was read strictly when it is read relaxed: of names, and of an object's certificate.
pub fn inspection_answers_alike()
    ensures names { NamesAlike }
    ensures certs { InspectedAlike }
{}

/// An object is sound exactly where it is so relaxed.
pub fn soundness_is_alike()
    ensures { SoundAlike }
{}
