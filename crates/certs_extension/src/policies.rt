//! Certificate policies (RFC 6487 4.8.9, RFC 8360 4.2).

ghost use Rattle.std.specs.Prelude.{◌≡◌, true, OnErr};
ghost use Rattle.certs_extension.specs.bcder_content.Exact.{ReadsAs};
ghost use Rattle.certs_extension.specs.bcder_content.Here.{here};
ghost use Rattle.certs_extension.specs.bcder_content.InMode.{ReadsFields};
ghost use Rattle.certs_extension.specs.Extensions.{IsPolicies};
ghost use Rattle.certs_extension.specs.Values.{ArePoliciesBody, IsPolicy, IsPolicyBody, alone};

use crate::forms::{Overclaim, OverclaimIds};
use certs_key::Oid;
use certs_key::decode::{Constructed, ContentError, DecodeError, Source};
use std::alloc::Global;

// The identifier of a policy, and anything after it.
fn take_policy_fields<S: Source>(
    alloc: Global,
    cons: &mut Constructed<S>,
) -> Result<Overclaim, DecodeError<S::Error>>
    ensures { ReadsFields alone IsPolicyBody (here S.rest cons.old) result (here S.rest cons.new) }
{
    let oid = Oid::take_from(alloc, cons)?;
    let found = Overclaim::from_policy(&oid);
    let Some(policy) = found else {
        return Err((*cons).content_err(ContentError::from_static("another policy")));
    };
    cons.skip_all(alloc)?;
    Ok(policy)
}

// One policy.
fn take_policy<S: Source>(
    alloc: Global,
    cons: &mut Constructed<S>,
) -> Result<Overclaim, DecodeError<S::Error>>
    ensures { ReadsAs (λ p. p) IsPolicy (here S.rest cons.old) result (here S.rest cons.new) }
{
    cons.take_sequence(
        |cons|
            ensures { ReadsFields alone IsPolicyBody
                (here S.rest cons.old) result (here S.rest cons.new) }
        { take_policy_fields(alloc, cons) },
    )
}

// The only policy.
fn take_only<S: Source>(
    alloc: Global,
    cons: &mut Constructed<S>,
) -> Result<Overclaim, DecodeError<S::Error>>
    ensures { ReadsFields alone ArePoliciesBody
        (here S.rest cons.old) result (here S.rest cons.new) }
{
    let policy = take_policy(alloc, cons)?;
    Ok(policy)
}

/// The policy: `SEQUENCE { SEQUENCE { policyIdentifier OBJECT IDENTIFIER, .. } }`, exactly one, which is known; what is
/// after its identifier is passed over (RFC 6487 4.8.9, RFC 8360 4.2).
pub fn take_policies<S: Source>(
    alloc: Global,
    cons: &mut Constructed<S>,
) -> Result<Overclaim, DecodeError<S::Error>>
    ensures reads { ReadsAs (λ p. p) IsPolicies
        (here S.rest cons.old) result (here S.rest cons.new) }
    ensures failed { OnErr result ((here S.rest cons.new).failed ≡ true) }
{
    cons.take_sequence(
        |cons|
            ensures { ReadsFields alone ArePoliciesBody
                (here S.rest cons.old) result (here S.rest cons.new) }
        { take_only(alloc, cons) },
    )
}
