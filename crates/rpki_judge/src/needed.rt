//! The numbers of each kind that are needed of a certificate.

ghost use Rattle.std.specs.Prelude.{◌≡◌, ℕ, ◌↔◌, IsTrue, IfOk};
ghost use Rattle.rpki_judge.specs.resources_chain.Sets.{InRuns, IsRunsOf};
ghost use Rattle.rpki_judge.specs.resources_chain.Claims.{Lists, Keeps};
ghost use Rattle.rpki_rules.specs.Judge.{NeedAbove, NeedWith};

use crate::Claims;
use resources::IpBlock;
use resources::asres::AsBlock;
use resources::chain::{Block, SharedChain};
use resources::choice::{Claim, ResourcesChoice};
use resources::overclaim::Overclaim;
use std::alloc::{AllocError, Global};
use std::marker::Model;

/// The numbers of each kind that are needed of a certificate.
#[derive(Debug, Drop)]
pub struct Needed {
    asn: SharedChain<AsBlock>,
    v4: SharedChain<IpBlock>,
    v6: SharedChain<IpBlock>,
}

impl Model for Needed {
    ghost use Rattle.rpki_judge.specs.resources.Resources.{Resources};

    ghost Value = { Resources };

    ghost view = { λ n. record { asn = n.asn; ipv4 = n.v4; ipv6 = n.v6 } };
}

// Whether the claim lists each number that is needed, or inherits the kind.
fn keeps<B: Block, C: Claim<Block = B>>(claim: &C, need: &SharedChain<B>) -> bool
    ensures { IsTrue result ↔ ((n : ℕ) → InRuns need.now n → Keeps (C.choice claim.now) n) }
{
    match claim.as_choice() {
        ResourcesChoice::Missing => need.as_chain().is_empty(),
        ResourcesChoice::Inherit => true,
        ResourcesChoice::Blocks(blocks) => need.as_chain().is_encompassed(&blocks.as_chain()),
    }
}

// Whether the claim lists each number that is needed.
fn lists<B: Block, C: Claim<Block = B>>(claim: &C, need: &SharedChain<B>) -> bool
    ensures { IsTrue result ↔ ((n : ℕ) → InRuns need.now n → Lists (C.choice claim.now) n) }
{
    match claim.as_choice() {
        ResourcesChoice::Missing | ResourcesChoice::Inherit => need.as_chain().is_empty(),
        ResourcesChoice::Blocks(blocks) => need.as_chain().is_encompassed(&blocks.as_chain()),
    }
}

// What is needed above a certificate with this claim: under `Refuse` what it lists, in place of what is needed of it.
fn above<B: Block, C: Claim<Block = B>>(
    claim: &C,
    policy: Overclaim,
    need: &SharedChain<B>,
) -> Result<SharedChain<B>, AllocError>
    ensures { IfOk result (IsRunsOf (NeedAbove policy (C.choice claim.now) (InRuns need.now))) }
{
    match policy {
        Overclaim::Trim => need.clone(),
        Overclaim::Refuse => match claim.as_choice() {
            ResourcesChoice::Missing | ResourcesChoice::Inherit => need.clone(),
            ResourcesChoice::Blocks(blocks) => blocks.clone(),
        },
    }
}

// What is needed at the point of a manifest whose certificate has this claim: what it lists under `Refuse` too.
fn with_list<B: Block, C: Claim<Block = B>>(
    alloc: Global,
    claim: &C,
    policy: Overclaim,
    need: &SharedChain<B>,
) -> Result<SharedChain<B>, AllocError>
    ensures { IfOk result (IsRunsOf (NeedWith policy (C.choice claim.now) (InRuns need.now))) }
{
    match policy {
        Overclaim::Trim => need.clone(),
        Overclaim::Refuse => match claim.as_choice() {
            ResourcesChoice::Missing | ResourcesChoice::Inherit => need.clone(),
            ResourcesChoice::Blocks(blocks) => {
                let both = blocks.as_chain().union(alloc, &need.as_chain())?;
                SharedChain::from_owned(alloc, both)
            }
        },
    }
}

// What is needed of the certificate above: what a certificate hands up, with what the manifest's certificate adds.
fn handed_up<B: Block, C: Claim<Block = B>>(
    alloc: Global,
    claim: &C,
    policy: Overclaim,
    manifest: &C,
    manifest_policy: Overclaim,
    need: &SharedChain<B>,
) -> Result<SharedChain<B>, AllocError>
    ensures { IfOk result (IsRunsOf (NeedWith manifest_policy (C.choice manifest.now)
        (NeedAbove policy (C.choice claim.now) (InRuns need.now)))) }
{
    let handed = above(claim, policy, need)?;
    with_list(alloc, manifest, manifest_policy, &handed)
}

// Whether it is so of each kind.
fn are_all(asn: bool, v4: bool, v6: bool) -> bool
    ensures { IsTrue result ↔ (IsTrue asn × IsTrue v4 × IsTrue v6) }
{
    matches!((asn, v4, v6), (true, true, true))
}

impl Needed {
    ghost use Rattle.rpki_judge.specs.Needed.{ListsAll, KeepsAll, IsNeedAt};

    /// These numbers of each kind.
    pub fn new(
        asn: SharedChain<AsBlock>,
        v4: SharedChain<IpBlock>,
        v6: SharedChain<IpBlock>,
    ) -> Self
        ensures { result ≡ record { asn = asn; ipv4 = v4; ipv6 = v6 } }
    {
        Needed { asn, v4, v6 }
    }

    /// Whether the certificate lists each number that is needed.
    pub fn are_listed(&self, claims: Claims) -> bool
        ensures { IsTrue result ↔ ListsAll claims.entry self.now }
    {
        let asn = lists(claims.asn, &self.asn);
        let v4 = lists(claims.v4, &self.v4);
        let v6 = lists(claims.v6, &self.v6);
        are_all(asn, v4, v6)
    }

    /// Whether the certificate lists each number that is needed, or inherits its kind.
    pub fn are_kept(&self, claims: Claims) -> bool
        ensures { IsTrue result ↔ KeepsAll claims.entry self.now }
    {
        let asn = keeps(claims.asn, &self.asn);
        let v4 = keeps(claims.v4, &self.v4);
        let v6 = keeps(claims.v6, &self.v6);
        are_all(asn, v4, v6)
    }

    /// What is then needed of the certificate above, at whose point the manifest's certificate claims this.
    pub fn above(
        &self,
        alloc: Global,
        claims: Claims,
        manifest: Claims,
    ) -> Result<Needed, AllocError>
        ensures { IfOk result (IsNeedAt claims.entry manifest.entry self.now) }
    {
        let (policy, other) = (claims.policy, manifest.policy);
        Ok(Needed {
            asn: handed_up(alloc, claims.asn, policy, manifest.asn, other, &self.asn)?,
            v4: handed_up(alloc, claims.v4, policy, manifest.v4, other, &self.v4)?,
            v6: handed_up(alloc, claims.v6, policy, manifest.v6, other, &self.v6)?,
        })
    }
}
