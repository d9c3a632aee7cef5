//! `judge`: whether an object is good by a chain.

ghost use Rattle.std.specs.Prelude.{◌≡◌, ◌∷◌, IfOk, map, string_bytes};
ghost use Rattle.rpki_questions.specs.certs_basics.Uris.{lookup_key as key_of_uri};
ghost use Rattle.rpki_validator.specs.rpki_rules.Views.{path_of, witness_of};
ghost use Rattle.rpki_validator.specs.rpki_rules.World.{run_world};
ghost use Rattle.rpki_digests.specs.Fips.{fips};
ghost use Rattle.rpki_questions.specs.Judged.{Judges, judgement_text as text_of_judgement, witness_asked};

use crate::answers::Answer;
use crate::keys::key_of;
use bytes::Bytes;
use rpki_digests::Fips;
use rpki_validator::{Bundle, Judgement, Path, TableVerifier, Witness, judge};
use std::alloc::{AllocError, Global};
use std::rc::Rc;

// The text of a judgement: `yes` or `no`, and how many publication points were read.
fn judgement_text(alloc: Global, judgement: Judgement, json: bool) -> Result<String, AllocError>
    ensures { IfOk result
        (λ text. string_bytes text ≡ text_of_judgement json judgement.yes judgement.points) }
{
    let (yes, points) = (judgement.yes, judgement.points);
    if json {
        return format!(in alloc; "{{\"good\":{yes},\"points\":{points}}}\n");
    }
    if yes {
        format!(in alloc; "yes\npoints {points}\n")
    } else {
        format!(in alloc; "no\npoints {points}\n")
    }
}

// The chain from the anchor's URI on.
fn asked_path(
    alloc: Global,
    locator: &str,
    anchor: &str,
    below: &[String],
) -> Result<Path, AllocError>
    ensures { IfOk result (λ path. path_of path ≡ record {
      locator = locator.now;
      chain = map key_of_uri (anchor.now ∷ map string_bytes below.now);
    }) }
{
    let name = Bytes::copy_from_slice(alloc, locator.as_bytes())?;
    let mut path = Path::new(alloc, name, key_of(alloc, anchor)?)?;
    for uri in below {
        let key = key_of(alloc, uri.as_str())?;
        path = path.longer(alloc, &key)?;
    }
    Ok(path)
}

/// The witness of the object at that URI by the locator of that name and by the chain of certificates at these URIs.
pub(crate) fn asked_witness(
    alloc: Global,
    locator: &str,
    object: &str,
    anchor: &str,
    below: &[String],
) -> Result<Witness, AllocError>
    ensures { IfOk result (λ witness. witness_of witness
        ≡ witness_asked locator.now object.now (anchor.now ∷ map string_bytes below.now)) }
{
    let path = asked_path(alloc, locator, anchor, below)?;
    let path = Rc::new(alloc, path)?;
    Ok(Witness::new(path, key_of(alloc, object)?))
}

/// Whether the witness's object is good by its chain, and how many publication points were read for that; a yes where it is.
pub(crate) fn judged(
    alloc: Global,
    bundle: &Bundle,
    witness: &Witness,
    json: bool,
) -> Result<Answer, AllocError>
    ensures { IfOk result (λ answer. Judges (run_world fips bundle.now) json
        (witness_of witness.now) answer.yes answer.text.items) }
{
    let mut verifier = TableVerifier::new(bundle, &Fips);
    let judgement = judge(alloc, bundle, witness, &Fips, &mut verifier)?;
    let text = judgement_text(alloc, judgement, json)?;
    Ok(Answer {
        text: text.into_bytes(),
        yes: judgement.yes,
    })
}
