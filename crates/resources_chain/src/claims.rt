//! The claim rule: what a certificate holds by what it lists, its policy and what its issuer holds.

ghost use Rattle.std.specs.Prelude.{◌≡◌, List, IfOk, IfErr, OnOk, OnErr};
ghost use Rattle.resources_chain.specs.Sets.{Run, InRuns, InBoth, IsRunsOf, IsInside};
ghost use Rattle.resources_chain.specs.declared.choice.ResourcesChoice.{ResourcesChoice};
ghost use Rattle.resources_chain.specs.declared.choice.ResourcesChoice.TheVariants.{Missing, Blocks};
ghost use Rattle.resources_chain.specs.declared.claims.Overclaim.TheVariants.{Refuse};
ghost use Rattle.resources_chain.specs.declared.claims.ClaimError.TheVariants.{Memory};
ghost use Rattle.resources_chain.specs.Choices.{choice_map};
ghost use Rattle.resources_chain.specs.Claims.{FitsIn, Kept, Refuses, path_of, HeldAlong, FitsAlong, RefusesAlong};

use crate::block::Block;
use crate::chain::SharedChain;
use crate::choice::ResourcesChoice;
use std::alloc::{AllocError, Global};
use std::error::Error;
use std::fmt;

/// What becomes of numbers that a certificate lists and that its issuer doesn't hold, by the certificate's policy.
#[derive(Clone, Copy, Debug, PartialEq, Eq, Hash)]
pub enum Overclaim {
    /// The certificate is refused (RFC 6487 7.2).
    Refuse,
    /// The certificate doesn't hold them (RFC 8360 4.2).
    Trim,
}

/// Why a claim is refused.
#[derive(Clone, Debug, Drop, PartialEq, Eq)]
pub enum ClaimError<T> {
    /// These numbers are listed and aren't held by the issuer.
    Overclaimed(T),
    /// No memory is left.
    Memory,
}

impl<T> fmt::Display for ClaimError<T> {
    fn fmt<W: fmt::Write>(&self, f: &mut fmt::Formatter<W>) -> fmt::Result {
        match self {
            ClaimError::Overclaimed(_) => f.write_str("overclaimed resources"),
            ClaimError::Memory => f.write_str("out of memory"),
        }
    }
}

impl<T: fmt::Debug + Drop> Error for ClaimError<T> {}

impl<T> From<AllocError> for ClaimError<T> {
    ghost from_gives = { λ _ e. e ≡ Memory };

    fn from(_: AllocError) -> Self {
        ClaimError::Memory
    }
}

/// What a certificate has of one kind of resources.
pub trait Claim {
    /// Blocks of that kind.
    type Block: Block;

    // The choice, its set as maximal runs.
    ghost choice: { Self → ResourcesChoice (List Run) };

    /// The choice, its set borrowed.
    fn as_choice(&self) -> ResourcesChoice<&SharedChain<Self::Block>>
        ensures { choice_map (λ blocks. blocks.now) result ≡ choice self.now };
}

impl<B: Block> Claim for ResourcesChoice<SharedChain<B>> {
    type Block = B;

    ghost choice = { λ choice. choice };

    fn as_choice(&self) -> ResourcesChoice<&SharedChain<B>> {
        self.as_ref()
    }
}

impl<B: Block> SharedChain<B> {
    /// What a certificate holds that claims so much below this issuer: nothing where the kind is missing, the
    /// issuer's numbers where it is inherited, and otherwise what it lists and the issuer holds. Under `Refuse` it
    /// may list nothing else (RFC 6487 section 7.2, RFC 8360 section 4.2).
    pub fn verify_issued<C: Claim<Block = B>>(
        &self,
        alloc: Global,
        claim: &C,
        mode: Overclaim,
    ) -> Result<SharedChain<B>, ClaimError<SharedChain<B>>>
        ensures fits { OnOk result (FitsIn mode (C.choice claim.now) (InRuns self.now)) }
        ensures held { IfOk result
            (λ held. IsRunsOf (Kept (C.choice claim.now) (InRuns self.now)) held) }
        ensures refused { IfErr result (Refuses mode (C.choice claim.now) (InRuns self.now)) }
        ensures present { OnErr result (¬ (C.choice claim.now ≡ Missing)) }
    {
        match claim.as_choice() {
            ResourcesChoice::Missing => Ok(SharedChain::empty()),
            ResourcesChoice::Inherit => Ok(self.clone()?),
            ResourcesChoice::Blocks(blocks) => match mode {
                Overclaim::Refuse => {
                    self.verify_has(alloc, blocks)?;
                    Ok(blocks.clone()?)
                }
                Overclaim::Trim => Ok(self.common(alloc, blocks)?),
            },
        }
    }

    /// Whether this issuer holds all numbers that are listed (RFC 6487 section 7.2), whatever the policy. Memory is
    /// wanted only to tell those that it doesn't hold.
    pub fn verify_covered<C: Claim<Block = B>>(
        &self,
        alloc: Global,
        claim: &C,
    ) -> Result<(), ClaimError<SharedChain<B>>>
        ensures fits { OnOk result (FitsIn Refuse (C.choice claim.now) (InRuns self.now)) }
        ensures refused { IfErr result (Refuses Refuse (C.choice claim.now) (InRuns self.now)) }
        ensures unfit { OnErr result (¬ (FitsIn Refuse (C.choice claim.now) (InRuns self.now))) }
    {
        match claim.as_choice() {
            ResourcesChoice::Blocks(blocks) => self.verify_has(alloc, blocks),
            _ => Ok(()),
        }
    }

    /// What the last of these certificates holds, each of which is issued by the one before and the first by the
    /// root, which holds this chain; or the first refusal (RFC 6487 section 7.2, RFC 8360 section 4.2).
    pub fn verify_path<C: Claim<Block = B>>(
        &self,
        alloc: Global,
        path: &[(C, Overclaim)],
    ) -> Result<SharedChain<B>, ClaimError<SharedChain<B>>>
        ensures fits { OnOk result (FitsAlong (InRuns self.now) (path_of C.choice path.now)) }
        ensures held { IfOk result
            (λ held. IsRunsOf (HeldAlong (InRuns self.now) (path_of C.choice path.now)) held) }
        ensures refused { IfErr result
            (RefusesAlong (InRuns self.now) (path_of C.choice path.now)) }
    {
        let mut held = self.clone()?;
        for (claim, mode) in path {
            held = held.verify_issued(alloc, claim, *mode)?;
        }
        Ok(held)
    }

    /// Whether all numbers of the blocks are in this chain.
    fn verify_has(
        &self,
        alloc: Global,
        blocks: &SharedChain<B>,
    ) -> Result<(), ClaimError<SharedChain<B>>>
        ensures fits { OnOk result (IsInside blocks.now self.now) }
        ensures refused { IfErr result (Refuses Refuse (Blocks blocks.now) (InRuns self.now)) }
        ensures unfit { OnErr result (¬ (IsInside blocks.now self.now)) }
    {
        let (listed, held) = (blocks.as_chain(), self.as_chain());
        if listed.is_encompassed(&held) {
            return Ok(());
        }
        let outside = listed.difference(alloc, &held)?;
        Err(ClaimError::Overclaimed(SharedChain::from_owned(alloc, outside)?))
    }

    /// The numbers of the blocks that are in this chain.
    fn common(&self, alloc: Global, blocks: &SharedChain<B>) -> Result<SharedChain<B>, AllocError>
        ensures { IfOk result (λ c. IsRunsOf (InBoth blocks.now self.now) c) }
    {
        match blocks.as_chain().trim(alloc, &self.as_chain())? {
            None => blocks.clone(),
            Some(trimmed) => SharedChain::from_owned(alloc, trimmed),
        }
    }
}
