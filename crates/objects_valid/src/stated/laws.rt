//! Laws of stated resources: the contracts of functions that do nothing.

ghost use Rattle.std.specs.Prelude.{◌≢◌};
ghost use Rattle.objects_cms.specs.bcder_tree.declared.mode.Mode.{Mode as ModeValue};
ghost use Rattle.objects_cms.specs.bcder_tree.Tree.{Tree};
ghost use Rattle.objects_cms.specs.bcder_content.Grammar.{One};
ghost use Rattle.resources_ip.specs.resources_chain.declared.choice.ResourcesChoice.TheVariants.{Inherit};
ghost use Rattle.objects_valid.specs.declared.stated.AsForm.{AsForm as AsFormValue};
ghost use Rattle.objects_valid.specs.Stated.{IsStated, Stated};

/// A value states one thing, at most.
pub fn one_meaning()
    ensures { (form : AsFormValue) (m : ModeValue) → One (IsStated form m) }
{}

/// What is stated is listed: nothing is inherited.
pub fn nothing_is_inherited()
    ensures asn { (form : AsFormValue) (m : ModeValue) (t : Tree) (s : Stated)
        → IsStated form m t s → s.asn ≢ Inherit }
    ensures v4 { (form : AsFormValue) (m : ModeValue) (t : Tree) (s : Stated)
        → IsStated form m t s → s.v4 ≢ Inherit }
    ensures v6 { (form : AsFormValue) (m : ModeValue) (t : Tree) (s : Stated)
        → IsStated form m t s → s.v6 ≢ Inherit }
{}
