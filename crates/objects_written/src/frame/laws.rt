//! Laws of what is written: the contracts of functions that do nothing.

ghost use Rattle.std.specs.Prelude.{ℕ, List, true};
ghost use Rattle.objects_written.specs.bcder_tree.declared.mode.Mode.TheVariants.{Der};
ghost use Rattle.objects_written.specs.bcder_content.Texts.{InOrder};
ghost use Rattle.objects_written.specs.bcder.Identifiers.{IsIdentifier};
ghost use Rattle.objects_written.specs.certs_extension.Cert.{CertValue};
ghost use Rattle.objects_written.specs.objects_payload.ObjectText.{ObjectText};
ghost use Rattle.objects_written.specs.objects_payload.SignedAttributes.{AreAttributes};
ghost use Rattle.objects_written.specs.Attributes.{ToSign, WritesAttributes, attributes_of};
ghost use Rattle.objects_written.specs.Frames.{AreParts, ObjectParts, object, object_with};

/// What is written of signed attributes is read again as these attributes, where the type of the content is an object
/// identifier.
pub fn attributes_are_read_again()
    ensures { (s : ToSign) (text : List ℕ) → IsIdentifier s.content_type → WritesAttributes s text
        → InOrder Der (AreAttributes Der) text (attributes_of s) }
{}

/// What is written in DER of an object whose parts fit together is read again, strictly, as the object of these parts.
pub fn objects_are_read_again()
    ensures { (o : ObjectParts) (c : CertValue) (s : ToSign) (text : List ℕ) → AreParts o c s
        → (object o).writes Der text → ObjectText true text (object_with o c s) }
{}
