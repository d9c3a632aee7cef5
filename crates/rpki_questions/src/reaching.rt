//! `reach`: what whoever may change the objects at some URIs can reach.

ghost use Rattle.std.specs.Prelude.{◌≡◌, ◌↔◌, IfOk, IsTrue, map, string_bytes};
ghost use Rattle.rpki_validator.specs.rpki_rules.Reach.{Held};
ghost use Rattle.rpki_validator.specs.rpki_rules.World.{run_world};
ghost use Rattle.rpki_validator.specs.rpki_walk.Naming.{answer_of};
ghost use Rattle.rpki_digests.specs.Fips.{fips};
ghost use Rattle.rpki_questions.specs.Reached.{Reaches, ReachesSome, reach_text as text_of_reach};

use crate::answers::Answer;
use crate::keys::octets_of;
use rpki_digests::Fips;
use rpki_validator::{Bundle, Reach, ResourceSet, TableVerifier, reach};
use std::alloc::{AllocError, Global};

// The text of numbers that may change.
fn held_text(alloc: Global, set: &ResourceSet, json: bool) -> Result<String, AllocError>
    ensures { IfOk result (λ text. string_bytes text ≡ text_of_reach json (Held set.now)) }
{
    let (asn, ipv4, ipv6) = (set.asn(), set.ipv4(), set.ipv6());
    if json {
        format!(in alloc;
            "{{\"locator\":false,\"as\":\"{asn}\",\"ipv4\":\"{ipv4}\",\"ipv6\":\"{ipv6}\"}}\n"
        )
    } else {
        format!(in alloc; "as {asn}\nipv4 {ipv4}\nipv6 {ipv6}\n")
    }
}

// The text of a reach: `locator` where all may change, else a line for each kind of which numbers may change.
fn reach_text(alloc: Global, reach: &Reach, json: bool) -> Result<String, AllocError>
    ensures { IfOk result (λ text. string_bytes text ≡ text_of_reach json (answer_of reach.now)) }
{
    match reach {
        Reach::Locator if json => String::from_str(alloc, "{\"locator\":true}\n"),
        Reach::Locator => String::from_str(alloc, "locator\n"),
        Reach::Held(set) => held_text(alloc, set, json),
    }
}

// Whether anything can be reached.
fn reaches_some(found: &Reach) -> bool
    ensures { IsTrue result ↔ ReachesSome (answer_of found.now) }
{
    match found {
        Reach::Locator => true,
        Reach::Held(set) => !set.is_empty(),
    }
}

/// What the URIs can reach; a yes where that is anything.
pub(crate) fn reached(
    alloc: Global,
    bundle: &Bundle,
    uris: &[String],
    json: bool,
) -> Result<Answer, AllocError>
    ensures { IfOk result (λ answer. Reaches (run_world fips bundle.now) json
        (map string_bytes uris.now) answer.yes answer.text.items) }
{
    let uris = octets_of(alloc, uris)?;
    let mut verifier = TableVerifier::new(bundle, &Fips);
    let found = reach(alloc, bundle, uris.as_slice(), &Fips, &mut verifier)?;
    let yes = reaches_some(&found);
    let text = reach_text(alloc, &found, json)?;
    Ok(Answer {
        text: text.into_bytes(),
        yes,
    })
}
