//! What is asked of a bundle, by whatever digests and verifies.

ghost use Rattle.std.specs.Prelude.{◌≡◌, ◌+◌, ◌≤◌, IfOk, length, map};
ghost use Rattle.rpki_validator.specs.certs_key.Digesting.{digests_of};
ghost use Rattle.rpki_validator.specs.rpki_rules.Judge.{IsJudged, may_ask};
ghost use Rattle.rpki_validator.specs.rpki_rules.Reach.{IsReach};
ghost use Rattle.rpki_validator.specs.rpki_rules.World.{world_of};
ghost use Rattle.rpki_rules.specs.DiagnosisViews.{AreDiagnoses};
ghost use Rattle.rpki_rules.specs.Report.{IsReport};
ghost use Rattle.rpki_rules.specs.Views.{witness_of, path_of};
ghost use Rattle.rpki_validator.specs.rpki_walk.Chained.{AreNamingChains};
ghost use Rattle.rpki_validator.specs.rpki_walk.Cost.{IsCost};
ghost use Rattle.rpki_steps.specs.rpki_standing.Readers.{world_by};
ghost use Rattle.rpki_steps.specs.rpki_judge.Counted.{ReadsPoints, may_ask_reading};
ghost use Rattle.rpki_validator.specs.rpki_walk.Naming.{answer_of};
ghost use Rattle.rpki_validator.specs.rpki_walk.Printed.{AreLines};

use bytes::Bytes;
use rpki_bundle::{Bundle, Digester, Verifier};
use rpki_rules::reason::Diagnosis;
use rpki_rules::{Path, Report, Witness};
use rpki_steps::{BundleRepository, Cost, Index, Judgement, Reach};
use std::alloc::{AllocError, Global};
use std::rc::Rc;

/// The report of a bundle: all that accepted chains attest, and all that the rules refuse, by these digests
/// and this verifier. Refused for lack of memory alone.
pub fn walk<D: Digester, V: Verifier>(
    alloc: Global,
    bundle: &Bundle,
    digester: &D,
    verifier: &mut V,
) -> Result<Report, AllocError>
    ensures report { IfOk result (IsReport (world_of
        (digests_of D.sha256_digest D.sha1_digest digester.now) (V.says verifier.old)
        bundle.now)) }
    ensures same { V.says verifier.new ≡ V.says verifier.old }
{
    let mut repository = BundleRepository::new(Index::new(bundle), digester, verifier);
    let report = rpki_steps::walk(alloc, &mut repository);
    // So the caller's verifier is the one that was asked.
    let _asked = repository.reader.verifier;
    report
}

/// The lines of a bundle: all that accepted chains attest, and all that the rules refuse, by these digests and this
/// verifier, without the witnesses, which tell by which chains. Chains that end alike are walked once, so this takes less
/// than `walk` where many authorities certify the same ones. Refused for lack of memory alone.
pub fn walk_lines<D: Digester, V: Verifier>(
    alloc: Global,
    bundle: &Bundle,
    digester: &D,
    verifier: &mut V,
) -> Result<Report, AllocError>
    ensures report { IfOk result (AreLines (world_of
        (digests_of D.sha256_digest D.sha1_digest digester.now) (V.says verifier.old)
        bundle.now)) }
    ensures same { V.says verifier.new ≡ V.says verifier.old }
{
    let mut repository = BundleRepository::new(Index::new(bundle), digester, verifier);
    let report = rpki_steps::walk_lines(alloc, &mut repository);
    // So the caller's verifier is the one that was asked.
    let _asked = repository.reader.verifier;
    report
}

/// All that is refused in a bundle, by these digests and this verifier, each with the first test that fails: locators,
/// publication points of accepted chains, and files of those that stand. Each stands once, by name, then by locator and chain;
/// of a claim that isn't held it tells the numbers that aren't. Refused for lack of memory alone.
pub fn diagnose<D: Digester, V: Verifier>(
    alloc: Global,
    bundle: &Bundle,
    digester: &D,
    verifier: &mut V,
) -> Result<Vec<Diagnosis>, AllocError>
    ensures diagnoses { IfOk result (λ found. AreDiagnoses (world_of
        (digests_of D.sha256_digest D.sha1_digest digester.now) (V.says verifier.old)
        bundle.now) found.items) }
    ensures same { V.says verifier.new ≡ V.says verifier.old }
{
    let mut repository = BundleRepository::new(Index::new(bundle), digester, verifier);
    let diagnosed = rpki_steps::diagnose(alloc, &mut repository);
    // So the caller's verifier is the one that was asked.
    let _asked = repository.reader.verifier;
    diagnosed
}

/// Whether the witness is one of those that a walk of the bundle lists. It is read from its object upward, so that the
/// verifier is asked for a few signatures a certificate, however much the bundle has: at most 4 times the chain's length
/// and 2 more, whatever the answer, and at most 4 times the publication points that were read and 4 more. Refused for lack
/// of memory alone.
pub fn judge_by<D: Digester, V: Verifier>(
    alloc: Global,
    evidence: &mut BundleRepository<'_, D, V>,
    witness: &Witness,
) -> Result<Judgement, AllocError>
    ensures judged { IfOk result (λ j. IsJudged
        (world_by D.sha256_digest D.sha1_digest V.says evidence.old.reader)
        (witness_of witness.now) j.yes j.points) }
    ensures read { IfOk result (λ j. ReadsPoints
        (world_by D.sha256_digest D.sha1_digest V.says evidence.old.reader)
        (witness_of witness.now) j.points) }
    ensures asked { V.count evidence.new.reader.verifier.now
        ≤ V.count evidence.old.reader.verifier.now
        + may_ask (length (witness_of witness.now).chain) }
    ensures asked_reading { IfOk result (λ j. V.count evidence.new.reader.verifier.now
        ≤ V.count evidence.old.reader.verifier.now + may_ask_reading j.points) }
    ensures same { V.says evidence.new.reader.verifier.now
        ≡ V.says evidence.old.reader.verifier.now }
    ensures same_world { world_by D.sha256_digest D.sha1_digest V.says evidence.new.reader
        ≡ world_by D.sha256_digest D.sha1_digest V.says evidence.old.reader }
    ensures same_verifier { evidence.new.reader.verifier.ghost_name
        ≡ evidence.old.reader.verifier.ghost_name }
{
    let locator = witness.locator().as_slice();
    let object = witness.object().as_slice();
    rpki_steps::judge(alloc, evidence, locator, witness.chain(), object)
}

/// Whether the witness is one of those that a walk of the bundle lists, by this digester and this verifier. It is read from
/// its object upward, so that the verifier is asked for a few signatures a certificate, however much the bundle has: at most
/// 4 times the chain's length and 2 more, whatever the answer, and at most 4 times the publication points that were read and
/// 4 more. Refused for lack of memory alone.
pub fn judge<D: Digester, V: Verifier>(
    alloc: Global,
    bundle: &Bundle,
    witness: &Witness,
    digester: &D,
    verifier: &mut V,
) -> Result<Judgement, AllocError>
    ensures judged { IfOk result (λ j. IsJudged (world_of
        (digests_of D.sha256_digest D.sha1_digest digester.now) (V.says verifier.old) bundle.now)
        (witness_of witness.now) j.yes j.points) }
    ensures read { IfOk result (λ j. ReadsPoints (world_of
        (digests_of D.sha256_digest D.sha1_digest digester.now) (V.says verifier.old) bundle.now)
        (witness_of witness.now) j.points) }
    ensures same { V.says verifier.new ≡ V.says verifier.old }
    ensures asked { V.count verifier.new ≤ V.count verifier.old
        + may_ask (length (witness_of witness.now).chain) }
    ensures asked_reading { IfOk result (λ j. V.count verifier.new
        ≤ V.count verifier.old + may_ask_reading j.points) }
{
    let mut evidence = BundleRepository::new(Index::new(bundle), digester, verifier);
    let judged = judge_by(alloc, &mut evidence, witness);
    // So the caller's verifier is the one that was asked.
    let _asked = evidence.reader.verifier;
    judged
}

/// What whoever may change the objects at these URIs can reach: `Locator` exactly where a readable locator names one of them,
/// and else the numbers that accepted chains hold which name one. Refused for lack of memory alone.
pub fn reach<D: Digester, V: Verifier>(
    alloc: Global,
    bundle: &Bundle,
    uris: &[Bytes],
    digester: &D,
    verifier: &mut V,
) -> Result<Reach, AllocError>
    ensures reach { IfOk result (λ r. IsReach uris.now (world_of
        (digests_of D.sha256_digest D.sha1_digest digester.now) (V.says verifier.old) bundle.now)
        (answer_of r)) }
    ensures same { V.says verifier.new ≡ V.says verifier.old }
{
    let mut repository = BundleRepository::new(Index::new(bundle), digester, verifier);
    let reached = rpki_steps::reach(alloc, &mut repository, uris);
    // So the caller's verifier is the one that was asked.
    let _asked = repository.reader.verifier;
    reached
}

/// The accepted chains whose last certificate names one of these URIs, as its manifest's or in a manifest that stands there:
/// each once, by locator and lookup keys. Refused for lack of memory alone.
pub fn naming_chains<D: Digester, V: Verifier>(
    alloc: Global,
    bundle: &Bundle,
    uris: &[Bytes],
    digester: &D,
    verifier: &mut V,
) -> Result<Vec<Rc<Path>>, AllocError>
    ensures chains { IfOk result (λ paths. AreNamingChains uris.now (world_of
        (digests_of D.sha256_digest D.sha1_digest digester.now) (V.says verifier.old) bundle.now)
        (map (λ p. path_of p.value) paths.items)) }
    ensures same { V.says verifier.new ≡ V.says verifier.old }
{
    let mut repository = BundleRepository::new(Index::new(bundle), digester, verifier);
    let chains = rpki_steps::naming_chains(alloc, &mut repository, uris);
    // So the caller's verifier is the one that was asked.
    let _asked = repository.reader.verifier;
    chains
}

/// How many accepted chains go on below each authority, the most first, by the lookup keys of their certificates: all of
/// them, or of as many chains as the budget has where more are accepted. Refused for lack of memory alone.
pub fn cost<D: Digester, V: Verifier>(
    alloc: Global,
    bundle: &Bundle,
    budget: u64,
    digester: &D,
    verifier: &mut V,
) -> Result<Cost, AllocError>
    ensures cost { IfOk result (IsCost (world_of
        (digests_of D.sha256_digest D.sha1_digest digester.now) (V.says verifier.old) bundle.now)
        budget) }
    ensures same { V.says verifier.new ≡ V.says verifier.old }
{
    let mut repository = BundleRepository::new(Index::new(bundle), digester, verifier);
    let counted = rpki_steps::cost(alloc, &mut repository, budget);
    // So the caller's verifier is the one that was asked.
    let _asked = repository.reader.verifier;
    counted
}
