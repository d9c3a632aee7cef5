//! One run: a bundle is read, and its lines are written.

ghost use Rattle.std.specs.Prelude.{◌≡◌, ◌<◌, ◌-◌, ◌^◌, IfOk, IfErr, OnOk};
ghost use Rattle.rpki_validator.specs.certs_key.Digesting.{digests_of};
ghost use Rattle.rpki_validator.specs.rpki_bundle.Bundle.{BundleText};
ghost use Rattle.rpki_validator.specs.rpki_rules.Output.{IsOutput};
ghost use Rattle.rpki_validator.specs.rpki_rules.World.{World, run_world};
ghost use Rattle.rpki_validator.specs.rpki_walk.Printed.{AreLines};
ghost use Rattle.rpki_validator.specs.Run.{BundleFails, IsNoBundle, ReadsBundle, ReadsSome, CountsReads, CountsWrites, Prints, RunFails};
ghost use Rattle.rpki_validator.specs.declared.runs.RunError.TheVariants.{Memory as memory_error};

use crate::bundles::walk_lines;
use crate::streams::{ReadFault, read_all, write_all};
use bytes::Bytes;
use objects_payload::counted::Counted;
use rpki_bundle::laws::bundle_length;
use rpki_bundle::{Bundle, BundleError, Digester};
use rpki_rules::Report;
use rpki_rules::lines::render;
use rpki_steps::TableVerifier;
use std::alloc::{AllocError, Global};
use std::io::{Read, Write};
use thiserror::Error;

/// Why a run ended before all was written.
#[derive(Clone, Copy, Debug, PartialEq, Eq, Hash, Error)]
pub enum RunError {
    /// The reader answered an error.
    #[error("read fault")]
    Read,
    /// What was read is no bundle.
    #[error("not a bundle")]
    NotABundle,
    /// The writer answered an error, or took nothing.
    #[error("write fault")]
    Write,
    /// A growth of memory was refused.
    #[error("out of memory")]
    Memory,
}

impl From<AllocError> for RunError {
    ghost from_gives = { λ _ e. e ≡ memory_error };

    fn from(_error: AllocError) -> Self {
        RunError::Memory
    }
}

// The lines of a report that a walk for lines made.
fn lines_of(alloc: Global, report: &Report) -> Result<Vec<u8>, AllocError>
    ensures { IfOk result (λ text.
        (w : World) → AreLines w report.now → IsOutput w text.items) }
{
    render(alloc, report)
}

// The output of a bundle: good are the signatures that its own table has.
fn output_of<D: Digester>(
    alloc: Global,
    bundle: &Bundle,
    digester: &D,
) -> Result<Vec<u8>, AllocError>
    ensures { IfOk result (λ text. IsOutput (run_world
        (digests_of D.sha256_digest D.sha1_digest digester.now) bundle.now) text.items) }
{
    let mut verifier = TableVerifier::new(bundle, digester);
    let report = walk_lines(alloc, bundle, digester, &mut verifier)?;
    lines_of(alloc, &report)
}

// One octet more than any bundle has.
const MOST_OCTETS: usize = 4_294_967_302;

// The bundle that the octets spell, all of them, which it shares.
fn bundle_of(alloc: Global, octets: Vec<u8>) -> Result<Bundle, RunError>
    ensures ok { IfOk result (BundleText octets.items) }
    ensures refused { IfErr result (λ e. IsNoBundle e octets.items) }
{
    let Ok(shared) = Bytes::from_vec(octets) else {
        return Err(RunError::Memory);
    };
    match Bundle::decode_shared(alloc, shared) {
        Ok(bundle) => Ok(bundle),
        Err(BundleError::NotABundle) => Err(RunError::NotABundle),
        Err(BundleError::Memory) => Err(RunError::Memory),
    }
}

/// Reads a bundle to the end of its input. Reading stops at one octet more than a bundle can have.
pub fn read_bundle<R: Read>(alloc: Global, reader: &mut Counted<R>) -> Result<Bundle, RunError>
    requires few { reader.old.failures < 2 ^ 64 - 1 }

    ensures ok { IfOk result (ReadsBundle (R.remaining reader.old.inner)
        (R.remaining reader.new.inner)) }
    ensures some { IfOk result (λ _. ReadsSome (R.remaining reader.old.inner)
        (R.remaining reader.new.inner)) }
    ensures refused { IfErr result (λ e. BundleFails e (R.remaining reader.old.inner)
        (R.remaining reader.new.inner)) }
    ensures reads { CountsReads result reader.old.failures reader.new.failures }
{
    // So a bundle ends before the reading is stopped.
    bundle_length();
    let octets = match read_all(alloc, reader, MOST_OCTETS) {
        Ok(octets) => octets,
        Err(ReadFault::Read) => return Err(RunError::Read),
        Err(ReadFault::Memory) => return Err(RunError::Memory),
    };
    bundle_of(alloc, octets)
}

/// Reads a bundle to the end of its input, and writes its lines: what its accepted chains attest, and what the rules refuse,
/// each once and in order.
///
/// The whole text is made before its first octet is written, so that of the refusals only `Write` leaves anything written.
pub fn run<R: Read, W: Write, D: Digester>(
    alloc: Global,
    reader: &mut Counted<R>,
    writer: &mut Counted<W>,
    digester: &D,
) -> Result<(), RunError>
    requires few_reads { reader.old.failures < 2 ^ 64 - 1 }
    requires few_writes { writer.old.failures < 2 ^ 64 - 1 }

    ensures ok { OnOk result
        (Prints (digests_of D.sha256_digest D.sha1_digest digester.now)
        (R.remaining reader.old.inner) (R.remaining reader.new.inner)
        (W.contents writer.old.inner) (W.contents writer.new.inner)) }
    ensures refused { IfErr result
        (λ e. RunFails (digests_of D.sha256_digest D.sha1_digest digester.now) e
        (R.remaining reader.old.inner) (R.remaining reader.new.inner)
        (W.contents writer.old.inner) (W.contents writer.new.inner)) }
    ensures reads { CountsReads result reader.old.failures reader.new.failures }
    ensures writes { CountsWrites result writer.old.failures writer.new.failures }
{
    let bundle = read_bundle(alloc, reader)?;
    let text = output_of(alloc, &bundle, digester)?;
    match write_all(writer, text.as_slice()) {
        Ok(()) => Ok(()),
        Err(_) => Err(RunError::Write),
    }
}
