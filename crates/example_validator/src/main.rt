//! What a bundle means: an example of a program on the face `rpki_validator`.
//!
//! Each line of standard input has the octets of a bundle, in hexadecimal digits. It is answered by the bundle's lines, by what
//! a judge says of each witness of a walk, and by what is refused and why. [`own`] has the digests and the verdicts.
#![tactic(auto)]

mod own;

ghost use Rattle.std.specs.Prelude.{IfOk};
ghost use Rattle.example_validator.specs.Own.{IsOutputOf, own_world};
ghost use Rattle.example_validator.specs.rpki_rules.DiagnosisViews.{AreDiagnoses};
ghost use Rattle.example_validator.specs.rpki_rules.Judge.{IsJudged};
ghost use Rattle.example_validator.specs.rpki_rules.Views.{witness_of};

use anyhow::Result;
use own::Own;
use rpki_reasons::push_reason;
use rpki_validator::reason::Diagnosis;
use rpki_validator::{Bundle, Counted, Judgement, RunError, Witness, diagnose, judge, run, walk};
use std::alloc::{AllocError, Global};
use std::str;

/// The lines of the bundle that the octets spell, by the verdicts that it has.
fn lines_of(alloc: Global, octets: &[u8]) -> Result<Vec<u8>, RunError>
    ensures { IfOk result (λ text. IsOutputOf octets.now text.items) }
{
    let mut reader = Counted::new(octets);
    let mut writer = Counted::new(Vec::new(alloc));
    run(alloc, &mut reader, &mut writer, &Own(0))?;
    Ok(writer.inner)
}

/// Whether the witness's object is good by its chain, by this program's verdicts.
fn judged(alloc: Global, bundle: &Bundle, witness: &Witness) -> Result<Judgement, AllocError>
    ensures { IfOk result
        (λ j. IsJudged (own_world bundle.now) (witness_of witness.now) j.yes j.points) }
{
    judge(alloc, bundle, witness, &Own(0), &mut Own(0))
}

/// All that is refused in the bundle by this program's verdicts, on each chain with the reason.
fn refused(alloc: Global, bundle: &Bundle) -> Result<Vec<Diagnosis>, AllocError>
    ensures { IfOk result (λ found. AreDiagnoses (own_world bundle.now) found.items) }
{
    diagnose(alloc, bundle, &Own(0), &mut Own(0))
}

// Prints what the judge says of a witness.
fn show_judged(rt: &HostRuntime, bundle: &Bundle, witness: &Witness) -> Result<()> {
    let judgement = judged(rt.alloc(), bundle, witness)?;
    let object = str::from_utf8(witness.object().as_slice())?;
    Ok(println!(rt; "{object} is good: {}", judgement.yes)?)
}

// Prints what is refused, and why.
fn show_refused(rt: &HostRuntime, diagnosis: &Diagnosis) -> Result<()> {
    let mut text = Vec::from_slice(rt.alloc(), diagnosis.name().as_slice())?;
    text.extend_from_slice(b" is refused: ")?;
    push_reason(&mut text, false, diagnosis.reason())?;
    Ok(println!(rt; "{}", str::from_utf8(text.as_slice())?)?)
}

// Prints what the bundle of hexadecimal digits means.
fn show(rt: &HostRuntime, digits: &str) -> Result<()> {
    let octets = hex::decode(rt.alloc(), digits)?;
    let lines = lines_of(rt.alloc(), octets.as_slice())?;
    print!(rt; "{}", str::from_utf8(lines.as_slice())?)?;
    let bundle = Bundle::decode(rt.alloc(), octets.as_slice())?;
    for witness in walk(rt.alloc(), &bundle, &Own(0), &mut Own(0))?.witnesses() {
        show_judged(rt, &bundle, witness)?;
    }
    for diagnosis in refused(rt.alloc(), &bundle)?.iter() {
        show_refused(rt, diagnosis)?;
    }
    Ok(())
}

fn main(rt: HostRuntime) -> Result<()> {
    for line in rt.lines(rt.alloc()) {
        if let Err(error) = show(&rt, line?.as_str()) {
            println!(rt; "refused: {error}")?;
        }
    }
    Ok(())
}
