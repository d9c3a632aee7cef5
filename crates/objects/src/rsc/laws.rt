//! Laws of checklists: the contracts of functions that do nothing.

ghost use Rattle.objects_payload.specs.bcder_content.Grammar.{One};
ghost use Rattle.objects_payload.specs.bcder_tree.declared.mode.Mode.{Mode as ModeValue};
ghost use Rattle.objects.specs.Checklists.{IsChecklist};

/// A value is one checklist at most.
pub fn one_checklist()
    ensures { (m : ModeValue) → One (IsChecklist m) }
{}
