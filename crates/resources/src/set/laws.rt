//! Laws of sets of resources. These functions do nothing: their contracts are the laws.

ghost use Rattle.std.specs.Prelude.{◌≡◌, ℕ, List};
ghost use Rattle.resources.specs.Resources.{Resources, Changes, AreChanges};
ghost use Rattle.resources.specs.Laws.{LeadsTo};
ghost use Rattle.resources.specs.Texts.{AreTextsOf};

/// What was there before, without what was removed and with what was added, is what is there now.
pub fn changes_lead_from_one_to_the_other()
    ensures { (now before : Resources) (d : Changes) → AreChanges now before d
        → LeadsTo before d now }
{}

/// Between two sets, what is added one way is removed the other way.
pub fn changes_turn_round()
    ensures { (now before : Resources) (d e : Changes) → AreChanges now before d
        → AreChanges before now e → (e.added ≡ d.removed) × (e.removed ≡ d.added) }
{}

/// Three texts are those of one set at most.
pub fn three_texts_write_one_set()
    ensures { (asn ipv4 ipv6 : List ℕ) (one other : Resources) → AreTextsOf asn ipv4 ipv6 one
        → AreTextsOf asn ipv4 ipv6 other → one ≡ other }
{
    resources_as::laws::a_text_writes_one_set();
    resources_ip::laws::a_text_writes_one_set();
}
