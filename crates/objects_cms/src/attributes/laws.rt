//! Laws of signed attributes: the contracts of functions that do nothing.

ghost use Rattle.std.specs.Prelude.{◌↔◌};
ghost use Rattle.objects_cms.specs.bcder_tree.declared.mode.Mode.{Mode as ModeValue};
ghost use Rattle.objects_cms.specs.bcder_tree.Tree.{Trees};
ghost use Rattle.objects_cms.specs.bcder_content.Words.{Gathers};
ghost use Rattle.objects_cms.specs.Said.{IsSaid};
ghost use Rattle.objects_cms.specs.Slots.{AreSlots};
ghost use Rattle.objects_payload.specs.SignedAttributes.{AreAttributes, AttributesValue};
ghost use Rattle.objects_cms.specs.Kept.{slots_of};

/// Values are signed attributes where each says something, each kind once at most, and the type and the digest are
/// there.
pub fn attributes_one_by_one()
    ensures { (m : ModeValue) (ts : Trees) (x : AttributesValue)
        → AreAttributes m ts x ↔ Gathers (IsSaid m) AreSlots ts (slots_of x) }
{}
