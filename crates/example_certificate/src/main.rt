//! What a certificate has: an example of a program on certificates, the face `certs`.
//!
//! Each line of standard input has the octets of one in hexadecimal digits, and is answered by what it has, or why it is none.
#![tactic(auto)]

ghost use Rattle.std.specs.Prelude.{IfOk, string_bytes};
ghost use Rattle.example_certificate.specs.certs_basics.Times.{IsMoment};
ghost use Rattle.example_certificate.specs.Shown.{IsShown};

use anyhow::Result;
use certs::cert::{Cert, TbsCert};
use certs::x509::{Rsync, Time};
use resources::{AddressFamily, IpBlocksForFamily, IpResources};
use std::alloc::Global;
use std::str;

/// The text YYYYMMDDHHMMSSZ of a moment.
fn moment_text(alloc: Global, moment: Time) -> Result<String>
    ensures { IfOk result (λ text. IsMoment (string_bytes text) moment) }
{
    Ok(str::from_utf8(moment.generalized().as_slice())?.to_string(alloc)?)
}

/// The addresses that are claimed, in order; `inherit` where they are the issuer's.
fn addresses(alloc: Global, family: AddressFamily, claimed: &IpResources) -> Result<String>
    ensures { IfOk result (λ text. IsShown family claimed.now (string_bytes text)) }
{
    if claimed.is_inherited() {
        return Ok("inherit".to_string(alloc)?);
    }
    let blocks = claimed.to_blocks()?;
    match family {
        AddressFamily::Ipv4 => Ok(IpBlocksForFamily::v4(&blocks).to_string(alloc)?),
        AddressFamily::Ipv6 => Ok(IpBlocksForFamily::v6(&blocks).to_string(alloc)?),
    }
}

// A URI, if it is there.
fn show_uri(rt: &HostRuntime, what: &str, uri: Option<&Rsync>) -> Result<()> {
    if let Some(uri) = uri {
        println!(rt; "{what} {uri}")?;
    }
    Ok(())
}

// Whose it is, by whom, from when to when, whether it is an authority's, what it claims, and its URIs.
fn show_fields(rt: &HostRuntime, tbs: &TbsCert) -> Result<()> {
    let issuer = hex::encode(rt.alloc(), tbs.issuer().as_slice())?;
    let subject = hex::encode(rt.alloc(), tbs.subject().as_slice())?;
    println!(rt; "serial number {}\nissuer {issuer}", tbs.serial_number())?;
    println!(rt; "subject {subject}\nkey {}", tbs.subject_key_identifier())?;
    let from = moment_text(rt.alloc(), tbs.validity().not_before())?;
    let to = moment_text(rt.alloc(), tbs.validity().not_after())?;
    println!(rt; "from {from}\nto {to}\nauthority {}", tbs.is_ca())?;
    let v4 = addresses(rt.alloc(), AddressFamily::Ipv4, tbs.v4_resources())?;
    let v6 = addresses(rt.alloc(), AddressFamily::Ipv6, tbs.v6_resources())?;
    println!(rt; "IPv4 {v4}\nIPv6 {v6}\nAS {}", tbs.as_resources())?;
    show_uri(rt, "revocation list", tbs.crl_uri())?;
    show_uri(rt, "repository", tbs.ca_repository())?;
    show_uri(rt, "manifest", tbs.rpki_manifest())?;
    show_uri(rt, "object", tbs.signed_object())
}

// Shows the certificate of hexadecimal digits.
fn show(rt: &HostRuntime, digits: &str) -> Result<()> {
    let octets = hex::decode(rt.alloc(), digits)?;
    let cert = Cert::decode(rt.alloc(), octets.as_slice())?;
    let shown = show_fields(rt, cert.tbs());
    drop(cert);
    shown
}

fn main(rt: HostRuntime) -> Result<()> {
    for line in rt.lines(rt.alloc()) {
        if let Err(error) = show(&rt, line?.as_str()) {
            println!(rt; "refused: {error}")?;
        }
    }
    Ok(())
}
