//! The lines of customers.

ghost use Rattle.std.specs.Prelude.{◌≡◌, ◌++◌, OnOk, codes, flat_map};
ghost use Rattle.rpki_rules.specs.Lines.{asn_text, customer_line};
ghost use Rattle.rpki_rules.specs.Views.{customer_of};

use crate::{Asn, Customer};
use std::alloc::{AllocError, Global};

// Appends a space and the number for each provider.
fn push_providers(alloc: Global, text: &mut Vec<u8>, providers: &[Asn]) -> Result<(), AllocError>
    ensures { OnOk result (text.new.items ≡
        text.old.items ++ flat_map (λ p. codes " " ++ asn_text p.value) providers.now) }
{
    for provider in providers {
        text.extend_from_slice(format!(in alloc; " {provider}")?.as_bytes())?;
    }
    Ok(())
}

// aspa AS64496 AS64497 AS64498
fn push_line(alloc: Global, text: &mut Vec<u8>, customer: &Customer) -> Result<(), AllocError>
    ensures { OnOk result (text.new.items ≡
        text.old.items ++ customer_line (customer_of customer.now)) }
{
    let number = customer.number();
    text.extend_from_slice(format!(in alloc; "aspa {number}")?.as_bytes())?;
    push_providers(alloc, text, customer.providers())?;
    text.push(b'\n')?;
    Ok(())
}

/// Appends a line for each customer.
pub(crate) fn push_all(
    alloc: Global,
    text: &mut Vec<u8>,
    customers: &[Customer],
) -> Result<(), AllocError>
    ensures { OnOk result (text.new.items ≡
        text.old.items ++ flat_map (λ c. customer_line (customer_of c)) customers.now) }
{
    for customer in customers {
        push_line(alloc, text, customer)?;
    }
    Ok(())
}
