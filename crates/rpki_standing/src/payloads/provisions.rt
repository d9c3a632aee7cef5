//! The provisions of provider attestations (draft-ietf-sidrops-aspa-profile 3).

ghost use Rattle.std.specs.Prelude.{◌≡◌, ◌++◌, OnErr, OnOk, map};
ghost use Rattle.rpki_rules.specs.Views.{provision_of};
ghost use Rattle.rpki_rules.specs.Attests.{OfAspa, provisions};
ghost use Rattle.rpki_standing.specs.Views.{Extends};

use objects_payload::aspa::AsProviderAttestation;
use rpki_rules::Provision;
use std::alloc::AllocError;

// Adds the customer with each of its providers; with some of them where memory runs out.
fn add_providers(
    content: &AsProviderAttestation,
    out: &mut Vec<Provision>,
) -> Result<(), AllocError>
    ensures ok { OnOk result (map provision_of out.new.items
        ≡ map provision_of out.old.items ++ provisions (OfAspa content.now)) }
    ensures kept { Extends out.old.items out.new.items }
{
    let customer = content.customer_as();
    for provider in content.provider_as_set().iter() {
        out.push(Provision { customer, provider })?;
    }
    Ok(())
}

/// Adds the customer of a provider attestation with each of its providers, in their order. Refused for lack of memory
/// alone, and then nothing is added.
pub fn add_aspa_provisions(
    content: &AsProviderAttestation,
    out: &mut Vec<Provision>,
) -> Result<(), AllocError>
    ensures ok { OnOk result (map provision_of out.new.items
        ≡ map provision_of out.old.items ++ provisions (OfAspa content.now)) }
    ensures err { OnErr result (out.new.items ≡ out.old.items) }
{
    let count = out.len();
    let added = add_providers(content, out);
    if added.is_err() {
        out.truncate(count);
    }
    added
}
