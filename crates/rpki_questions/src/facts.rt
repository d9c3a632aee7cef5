//! Facts: what is refused, what is good, and which chains name a URI; all of a list, or those about a name or a URI.

ghost use Rattle.std.specs.Prelude.{◌≡◌, ◌++◌, ◌∷◌, [], ℕ, Bool, List, true, OnOk, bytes_eq, cond, drop, flat_map};
ghost use Rattle.std.specs.List.{list_any};
ghost use Rattle.rpki_validator.specs.rpki_rules.Views.{path_of, witness_of};
ghost use Rattle.rpki_questions.specs.Orders.{refused_of};
ghost use Rattle.rpki_questions.specs.Refused.{refused_line, refused_object};
ghost use Rattle.rpki_questions.specs.Told.{chain_line, chain_object, good_line, good_object, has_key, refuses};
ghost use Rattle.rpki_questions.specs.Shown.{shown_as};

use crate::refused::Refused;
use crate::texts;
use bytes::Bytes;
use rpki_reasons::json::push_array;
use rpki_validator::{Path, Witness};
use std::alloc::{AllocError, Global};
use std::rc::Rc;

/// What a line or a JSON object tells.
pub(crate) trait Fact {
    // Its line, or a comma and its JSON object.
    ghost shown: { Bool → Self → List ℕ };

    // Whether it is about what has this name, or about the URI with this lookup key.
    ghost about: { List ℕ → List ℕ → Self → Bool };

    /// Appends its line, or a comma and its JSON object.
    fn push(&self, alloc: Global, text: &mut Vec<u8>, json: bool) -> Result<(), AllocError>
        ensures { OnOk result (text.new.items ≡ text.old.items ++ shown json self.now) };

    /// Whether it is about what has this name, or about the URI with this lookup key.
    fn is_about(&self, name: &[u8], key: &[u8]) -> bool
        ensures { result ≡ about name.now key.now self.now };
}

impl Fact for Refused {
    ghost shown = { λ json r. shown_as refused_line refused_object json (refused_of r) };

    ghost about = { λ name key r. refuses name key (refused_of r) };

    fn push(&self, alloc: Global, text: &mut Vec<u8>, json: bool) -> Result<(), AllocError> {
        if json {
            text.extend_from_slice(b",")?;
            texts::push_refused_object(alloc, text, self)
        } else {
            texts::push_refused(alloc, text, self)
        }
    }

    fn is_about(&self, name: &[u8], key: &[u8]) -> bool {
        let own = self.name().as_slice();
        own == key || own == name
    }
}

// Whether one of the URIs is that lookup key.
fn is_on(chain: &[Bytes], key: &[u8]) -> bool
    ensures { result ≡ list_any (λ uri. bytes_eq uri key.now) chain.now }
{
    chain.iter().any(|uri| uri.as_slice() == key)
}

impl Fact for Witness {
    ghost shown = { λ json t. shown_as good_line good_object json (witness_of t) };

    ghost about = { λ name key t. has_key key (witness_of t) };

    fn push(&self, _alloc: Global, text: &mut Vec<u8>, json: bool) -> Result<(), AllocError> {
        if json {
            text.extend_from_slice(b",")?;
            texts::push_witness_object(text, self)
        } else {
            texts::push_witness(text, self)
        }
    }

    fn is_about(&self, _name: &[u8], key: &[u8]) -> bool {
        self.object().as_slice() == key || is_on(self.chain(), key)
    }
}

// A chain that names the URI; no other is asked for.
impl Fact for Rc<Path> {
    ghost shown = { λ json p. shown_as chain_line chain_object json (path_of p.value) };

    ghost about = { λ name key p. true };

    fn push(&self, _alloc: Global, text: &mut Vec<u8>, json: bool) -> Result<(), AllocError> {
        if json {
            text.extend_from_slice(b",")?;
            texts::push_chain_object(text, self.as_ref())
        } else {
            texts::push_chain(text, self.as_ref())
        }
    }

    fn is_about(&self, _name: &[u8], _key: &[u8]) -> bool {
        true
    }
}

// Appends what the fact tells if it is about that.
fn push_about<T: Fact>(
    alloc: Global,
    text: &mut Vec<u8>,
    fact: &T,
    name: &[u8],
    key: &[u8],
    json: bool,
) -> Result<(), AllocError>
    ensures { OnOk result (text.new.items ≡
        text.old.items ++ cond (T.about name.now key.now fact.now) (T.shown json fact.now) []) }
{
    if fact.is_about(name, key) {
        fact.push(alloc, text, json)
    } else {
        Ok(())
    }
}

/// Appends what the facts about that tell: lines, or JSON objects with a comma in front of each.
pub(crate) fn push_facts<T: Fact>(
    alloc: Global,
    text: &mut Vec<u8>,
    facts: &[T],
    name: &[u8],
    key: &[u8],
    json: bool,
) -> Result<(), AllocError>
    ensures { OnOk result (text.new.items ≡ text.old.items
        ++ flat_map (λ x. cond (T.about name.now key.now x) (T.shown json x) []) facts.now) }
{
    for fact in facts {
        push_about(alloc, text, fact, name, key, json)?;
    }
    Ok(())
}

/// Appends a JSON array of the facts about that.
pub(crate) fn push_fact_array<T: Fact>(
    alloc: Global,
    text: &mut Vec<u8>,
    facts: &[T],
    name: &[u8],
    key: &[u8],
) -> Result<(), AllocError>
    ensures { OnOk result (text.new.items ≡ text.old.items ++ (91 ∷ (drop 1
        (flat_map (λ x. cond (T.about name.now key.now x) (T.shown true x) []) facts.now)
        ++ 93 ∷ []))) }
{
    let mut values = Vec::new(alloc);
    push_facts(alloc, &mut values, facts, name, key, true)?;
    push_array(text, values.as_slice())
}

/// Appends what all facts tell: lines, or JSON objects with a comma in front of each.
pub(crate) fn push_each<T: Fact>(
    alloc: Global,
    text: &mut Vec<u8>,
    facts: &[T],
    json: bool,
) -> Result<(), AllocError>
    ensures { OnOk result
        (text.new.items ≡ text.old.items ++ flat_map (T.shown json) facts.now) }
{
    for fact in facts {
        fact.push(alloc, text, json)?;
    }
    Ok(())
}

/// Whether there is a fact about that.
pub(crate) fn has_any<T: Fact>(facts: &[T], name: &[u8], key: &[u8]) -> bool
    ensures { result ≡ list_any (T.about name.now key.now) facts.now }
{
    facts.iter().any(|fact| fact.is_about(name, key))
}
