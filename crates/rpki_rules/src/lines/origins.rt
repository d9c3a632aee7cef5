//! The lines of origins.

ghost use Rattle.std.specs.Prelude.{◌≡◌, ◌++◌, IfOk, OnOk, Some, flat_map};
ghost use Rattle.std.specs.String.{string_bytes};
ghost use Rattle.rpki_rules.specs.resources_ip_prefix.Address.{bits_of};
ghost use Rattle.rpki_rules.specs.resources_ip_prefix.Prefix.{prefix_addr, prefix_len};
ghost use Rattle.rpki_rules.specs.resources_ip_prefix.Text.{slashed};
ghost use Rattle.rpki_rules.specs.Lines.{address_text, origin_line};
ghost use Rattle.rpki_rules.specs.Views.{kind_of, origin_of};

use crate::{AddressFamily, Origin, Prefix};
use std::alloc::{AllocError, Global};
use std::fmt;

// A prefix with the family that says how it is written.
#[derive(Clone, Copy)]
struct FamilyPrefix {
    family: AddressFamily,
    prefix: Prefix,
}

impl fmt::Display for FamilyPrefix {
    ghost output = { λ p. Some (slashed
        (address_text (kind_of p.family) (bits_of (prefix_addr p.prefix)))
        (prefix_len p.prefix)) };

    fn fmt<W: fmt::Write>(&self, f: &mut fmt::Formatter<W>) -> fmt::Result {
        match self.family {
            AddressFamily::Ipv4 => self.prefix.fmt_v4(f),
            AddressFamily::Ipv6 => self.prefix.fmt_v6(f),
        }
    }
}

// roa AS64496 192.0.2.0/24 24
fn line_of(alloc: Global, origin: &Origin) -> Result<String, AllocError>
    ensures { IfOk result (λ line. string_bytes line ≡ origin_line (origin_of origin.now)) }
{
    let asn = origin.asn();
    let prefix = FamilyPrefix {
        family: origin.family(),
        prefix: origin.prefix(),
    };
    let max_len = origin.max_len();
    format!(in alloc; "roa {asn} {prefix} {max_len}\n")
}

/// Appends a line for each origin.
pub(crate) fn push_all(
    alloc: Global,
    text: &mut Vec<u8>,
    origins: &[Origin],
) -> Result<(), AllocError>
    ensures { OnOk result (text.new.items ≡
        text.old.items ++ flat_map (λ o. origin_line (origin_of o)) origins.now) }
{
    for origin in origins {
        text.extend_from_slice(line_of(alloc, origin)?.as_bytes())?;
    }
    Ok(())
}
