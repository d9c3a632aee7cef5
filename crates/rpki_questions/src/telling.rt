//! `why`: why a URI, or the locator of a name, is attested or refused.

ghost use Rattle.std.specs.Prelude.{◌≡◌, ◌||◌, ◌∷◌, [], IfOk, false, map, true};
ghost use Rattle.rpki_questions.specs.certs_basics.Uris.{lookup_key as key_of_uri};
ghost use Rattle.rpki_validator.specs.rpki_rules.Report.{IsReport};
ghost use Rattle.rpki_validator.specs.rpki_rules.Views.{path_of};
ghost use Rattle.rpki_validator.specs.rpki_rules.World.{run_world};
ghost use Rattle.rpki_validator.specs.rpki_walk.Chained.{AreNamingChains};
ghost use Rattle.rpki_digests.specs.Fips.{fips};
ghost use Rattle.rpki_questions.specs.Told.{Tells, facts_in, facts_text as text_of_facts, is_some};

use crate::answers::Answer;
use crate::facts::{has_any, push_fact_array, push_facts};
use crate::keys::key_of;
use crate::refused::{Refused, all_refused};
use bytes::Bytes;
use rpki_digests::Fips;
use rpki_validator::{Bundle, Path, Report, TableVerifier, naming_chains, walk};
use std::alloc::{AllocError, Global};
use std::rc::Rc;

// What is asked about, and what was found in the bundle: facts are what of that is about this.
#[derive(Clone, Copy)]
struct Found<'a> {
    // The URI, or the locator's name.
    name: &'a [u8],
    // The lookup key of the URI.
    key: &'a [u8],
    // All that is refused.
    refused: &'a [Refused],
    // What is good, in a report.
    report: &'a Report,
    // The accepted chains that name the URI.
    chains: &'a [Rc<Path>],
}

// The facts as lines.
fn facts_lines(alloc: Global, found: &Found<'_>) -> Result<Vec<u8>, AllocError>
    requires { found.now.key.now ≡ key_of_uri found.now.name.now }
    ensures { IfOk result (λ text. text.items ≡ text_of_facts false (facts_in found.now)) }
{
    let (name, key) = (found.name, found.key);
    let mut text = Vec::new(alloc);
    push_facts(alloc, &mut text, found.refused, name, key, false)?;
    push_facts(alloc, &mut text, found.report.witnesses(), name, key, false)?;
    push_facts(alloc, &mut text, found.chains, name, key, false)?;
    Ok(text)
}

// The facts as one JSON object.
fn facts_object(alloc: Global, found: &Found<'_>) -> Result<Vec<u8>, AllocError>
    requires { found.now.key.now ≡ key_of_uri found.now.name.now }
    ensures { IfOk result (λ text. text.items ≡ text_of_facts true (facts_in found.now)) }
{
    let (name, key) = (found.name, found.key);
    let mut text = Vec::new(alloc);
    text.extend_from_slice(b"{\"refused\":")?;
    push_fact_array(alloc, &mut text, found.refused, name, key)?;
    text.extend_from_slice(b",\"good\":")?;
    push_fact_array(alloc, &mut text, found.report.witnesses(), name, key)?;
    text.extend_from_slice(b",\"chains\":")?;
    push_fact_array(alloc, &mut text, found.chains, name, key)?;
    text.extend_from_slice(b"}\n")?;
    Ok(text)
}

// The facts as a text.
fn facts_text(alloc: Global, found: &Found<'_>, json: bool) -> Result<Vec<u8>, AllocError>
    requires { found.now.key.now ≡ key_of_uri found.now.name.now }
    ensures { IfOk result (λ text. text.items ≡ text_of_facts json (facts_in found.now)) }
{
    if json {
        facts_object(alloc, found)
    } else {
        facts_lines(alloc, found)
    }
}

// Whether there is one of three kinds.
fn is_any(refused: bool, good: bool, named: bool) -> bool
    ensures { result ≡ (refused || (good || named)) }
{
    refused || good || named
}

// Whether there is a fact.
fn has_fact(found: &Found<'_>) -> bool
    requires { found.now.key.now ≡ key_of_uri found.now.name.now }
    ensures { result ≡ is_some (facts_in found.now) }
{
    let refused = has_any(found.refused, found.name, found.key);
    let good = has_any(found.report.witnesses(), found.name, found.key);
    let named = has_any(found.chains, found.name, found.key);
    is_any(refused, good, named)
}

// The report of the bundle.
fn report_of(alloc: Global, bundle: &Bundle) -> Result<Report, AllocError>
    ensures { IfOk result (IsReport (run_world fips bundle.now)) }
{
    let mut verifier = TableVerifier::new(bundle, &Fips);
    walk(alloc, bundle, &Fips, &mut verifier)
}

// The URI, as a list of one.
fn alone(alloc: Global, name: &str) -> Result<Vec<Bytes>, AllocError>
    ensures { IfOk result (λ uris. uris.items ≡ name.now ∷ []) }
{
    let mut uris = Vec::new(alloc);
    let uri = Bytes::copy_from_slice(alloc, name.as_bytes())?;
    uris.push(uri)?;
    Ok(uris)
}

// The accepted chains that name the URI.
fn chains_of(alloc: Global, bundle: &Bundle, name: &str) -> Result<Vec<Rc<Path>>, AllocError>
    ensures { IfOk result (λ paths. AreNamingChains (name.now ∷ []) (run_world fips bundle.now)
        (map (λ path. path_of path.value) paths.items)) }
{
    let uris = alone(alloc, name)?;
    let mut verifier = TableVerifier::new(bundle, &Fips);
    naming_chains(alloc, bundle, uris.as_slice(), &Fips, &mut verifier)
}

/// Why the URI, or the locator of that name, is attested or refused; a yes where there is a fact.
pub(crate) fn told(
    alloc: Global,
    bundle: &Bundle,
    name: &str,
    json: bool,
) -> Result<Answer, AllocError>
    ensures { IfOk result (λ answer. Tells (run_world fips bundle.now) json name.now answer.yes
        answer.text.items) }
{
    let refused = all_refused(alloc, bundle)?;
    let report = report_of(alloc, bundle)?;
    let chains = chains_of(alloc, bundle, name)?;
    let key = key_of(alloc, name)?;
    let found = Found {
        name: name.as_bytes(),
        key: key.as_slice(),
        refused: refused.as_slice(),
        report: &report,
        chains: chains.as_slice(),
    };
    let text = facts_text(alloc, &found, json)?;
    let yes = has_fact(&found);
    Ok(Answer { text, yes })
}
