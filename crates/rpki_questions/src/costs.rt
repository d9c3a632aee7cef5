//! `cost`: how many accepted chains go on below each authority.

ghost use Rattle.std.specs.Prelude.{◌≡◌, ◌++◌, ◌∷◌, true, false, IfOk, OnOk, codes, decimal, flat_map, map, string_bytes};
ghost use Rattle.rpki_validator.specs.rpki_rules.World.{run_world};
ghost use Rattle.rpki_validator.specs.rpki_walk.Cost.{count_of};
ghost use Rattle.rpki_digests.specs.Fips.{fips};
ghost use Rattle.rpki_reasons.specs.Json.{json_bool};
ghost use Rattle.rpki_questions.specs.Costed.{Costs, cost_text as text_of_cost, count_line, count_object, counts_of as counts_of_cost, exact_line as line_of_exact, is_exact as is_exact_cost};

use crate::answers::Answer;
use rpki_digests::Fips;
use rpki_reasons::json::{push_array, push_string};
use rpki_validator::{Bundle, Cost, Count, TableVerifier, cost};
use std::alloc::{AllocError, Global};

// Appends N AUTHORITY, and the end of the line.
fn push_line(alloc: Global, text: &mut Vec<u8>, count: &Count) -> Result<(), AllocError>
    ensures { OnOk result (text.new.items ≡ text.old.items ++ count_line (count_of count.now)) }
{
    let number = format!(in alloc; "{} ", count.chains())?;
    text.extend_from_slice(number.as_bytes())?;
    text.extend_from_slice(count.authority().as_slice())?;
    text.extend_from_slice(b"\n")
}

// A comma and {"chains":..,"authority":
fn chains_member(alloc: Global, chains: u64) -> Result<String, AllocError>
    ensures { IfOk result (λ text. string_bytes text
        ≡ codes ",{\"chains\":" ++ (decimal chains ++ codes ",\"authority\":")) }
{
    format!(in alloc; ",{{\"chains\":{chains},\"authority\":")
}

// Appends a comma and {"chains":..,"authority":..}
fn push_object(alloc: Global, text: &mut Vec<u8>, count: &Count) -> Result<(), AllocError>
    ensures { OnOk result
        (text.new.items ≡ text.old.items ++ (44 ∷ count_object (count_of count.now))) }
{
    let member = chains_member(alloc, count.chains())?;
    text.extend_from_slice(member.as_bytes())?;
    push_string(text, count.authority().as_slice())?;
    text.extend_from_slice(b"}")
}

// Appends a line for each count.
fn push_lines(alloc: Global, text: &mut Vec<u8>, counts: &[Count]) -> Result<(), AllocError>
    ensures { OnOk result (text.new.items
        ≡ text.old.items ++ flat_map (λ c. count_line (count_of c)) counts.now) }
{
    for count in counts {
        push_line(alloc, text, count)?;
    }
    Ok(())
}

// Appends an object for each count, with a comma in front of each.
fn push_objects(alloc: Global, text: &mut Vec<u8>, counts: &[Count]) -> Result<(), AllocError>
    ensures { OnOk result (text.new.items
        ≡ text.old.items ++ flat_map (λ c. 44 ∷ count_object (count_of c)) counts.now) }
{
    for count in counts {
        push_object(alloc, text, count)?;
    }
    Ok(())
}

// `exactly` or `at least`, and the end of the line.
fn exact_line(exact: bool) -> &'static str
    ensures { result.now ≡ line_of_exact exact }
{
    if exact { "exactly\n" } else { "at least\n" }
}

// The line of that, and a line for each count.
fn cost_lines(alloc: Global, exact: bool, counts: &[Count]) -> Result<Vec<u8>, AllocError>
    ensures { IfOk result
        (λ text. text.items ≡ text_of_cost false exact (map count_of counts.now)) }
{
    let mut text = Vec::from_slice(alloc, exact_line(exact).as_bytes())?;
    push_lines(alloc, &mut text, counts)?;
    Ok(text)
}

// {"exact":..,"below":
fn exact_member(alloc: Global, exact: bool) -> Result<String, AllocError>
    ensures { IfOk result (λ text. string_bytes text
        ≡ codes "{\"exact\":" ++ (json_bool exact ++ codes ",\"below\":")) }
{
    format!(in alloc; "{{\"exact\":{exact},\"below\":")
}

// {"exact":..,"below":[{"chains":..,"authority":..},..]}
fn cost_object(alloc: Global, exact: bool, counts: &[Count]) -> Result<Vec<u8>, AllocError>
    ensures { IfOk result
        (λ text. text.items ≡ text_of_cost true exact (map count_of counts.now)) }
{
    let mut objects = Vec::new(alloc);
    push_objects(alloc, &mut objects, counts)?;
    let mut text = exact_member(alloc, exact)?.into_bytes();
    push_array(&mut text, objects.as_slice())?;
    text.extend_from_slice(b"}\n")?;
    Ok(text)
}

// The text of counts, of which is said whether all accepted chains are in them.
fn cost_text(
    alloc: Global,
    exact: bool,
    counts: &[Count],
    json: bool,
) -> Result<Vec<u8>, AllocError>
    ensures { IfOk result
        (λ text. text.items ≡ text_of_cost json exact (map count_of counts.now)) }
{
    if json {
        cost_object(alloc, exact, counts)
    } else {
        cost_lines(alloc, exact, counts)
    }
}

// Whether all accepted chains were counted.
fn is_exact(found: &Cost) -> bool
    ensures { result ≡ is_exact_cost found.now }
{
    matches!(found, Cost::Exactly(_))
}

// The counts.
fn counts_of(found: &Cost) -> &[Count]
    ensures { map count_of result.now ≡ counts_of_cost found.now }
{
    match found {
        Cost::Exactly(counts) | Cost::AtLeast(counts) => counts.as_slice(),
    }
}

/// How many accepted chains go on below each authority, where as many chains are counted as the limit says; a yes where
/// these are all.
pub(crate) fn costed(
    alloc: Global,
    bundle: &Bundle,
    limit: u64,
    json: bool,
) -> Result<Answer, AllocError>
    ensures { IfOk result (λ answer. Costs (run_world fips bundle.now) json limit answer.yes
        answer.text.items) }
{
    let mut verifier = TableVerifier::new(bundle, &Fips);
    let found = cost(alloc, bundle, limit, &Fips, &mut verifier)?;
    let yes = is_exact(&found);
    let text = cost_text(alloc, yes, counts_of(&found), json)?;
    Ok(Answer { text, yes })
}
