//! Whether a file is one that a signed checklist lists: an example of a program on the faces `objects` and `certs`.
//!
//! Each line of standard input has a moment, a trust anchor's certificate, a signed checklist, the name of a file and its
//! octets, with a tab between; octets are in hexadecimal digits. It is answered by `listed` where the checklist is accepted
//! below the anchor at that moment and lists a file of that name with the octets' digest, by `not listed` where it lists none,
//! and else by why it isn't accepted. [`listed`] has this with its contract. Who has revocation lists at hand looks the
//! checklist's certificate up in place of accepting each, and checks signatures in place of
//! [`StandIn`](signatures::StandIn).
#![tactic(auto)]

mod listed;
mod signatures;

use anyhow::{Result, anyhow};
use certs::cert::{Cert, ResourceCert, Validate};
use certs::x509::{TalInfo, Time};
use listed::{File, Terms, is_checked};
use objects::rsc::Rsc;
use rpki_digests::Fips;
use signatures::StandIn;
use std::alloc::Global;

// The trust anchor of hexadecimal digits, with what it holds.
fn anchor_of(alloc: Global, digits: &str, now: Time) -> Result<ResourceCert> {
    let octets = hex::decode(alloc, digits)?;
    let tal = TalInfo::from_name(String::from_str(alloc, "example")?).into_rc(alloc)?;
    let Ok(cert) = Cert::decode(alloc, octets.as_slice()) else {
        return Err(anyhow!("no certificate"));
    };
    let mut verifier = StandIn { asked: 0 };
    match cert.validate_ta_at(tal, true, now, &Fips, &mut verifier) {
        Ok(anchor) => Ok(anchor),
        Err(refused) => {
            drop(refused);
            Err(anyhow!("no trust anchor"))
        }
    }
}

// The checklist of hexadecimal digits.
fn checklist_of(alloc: Global, digits: &str) -> Result<Rsc> {
    let octets = hex::decode(alloc, digits)?;
    let Ok(rsc) = Rsc::decode(alloc, octets.as_slice(), true) else {
        return Err(anyhow!("no checklist"));
    };
    Ok(rsc)
}

// Whether the file is one of the checklist, where that is accepted.
fn checked(
    alloc: Global,
    rsc: Rsc,
    issuer: &ResourceCert,
    moment: Time,
    file: File<'_>,
) -> Result<bool> {
    let mut verifier = StandIn { asked: 0 };
    let mut terms = Terms {
        issuer,
        moment,
        verifier: &mut verifier,
    };
    Ok(is_checked(alloc, rsc, &mut terms, |_| Ok(()), file)?)
}

// Whether a file, of a name and of the octets of hexadecimal digits, is one of a checklist below the issuer.
fn below(
    alloc: Global,
    issuer: &ResourceCert,
    now: Time,
    checklist: &str,
    file: (&str, &str),
) -> Result<bool> {
    let (name, digits) = file;
    let octets = hex::decode(alloc, digits)?;
    let rsc = checklist_of(alloc, checklist)?;
    let file = File {
        name: name.as_bytes(),
        octets: octets.as_slice(),
    };
    checked(alloc, rsc, issuer, now, file)
}

// Whether the file of a line's words is one of its checklist.
fn answered(alloc: Global, words: &[&str]) -> Result<bool> {
    let [moment, anchor, checklist, name, octets] = words else {
        return Err(anyhow!("not five words"));
    };
    let Some(now) = Time::from_generalized((*moment).as_bytes()) else {
        return Err(anyhow!("no moment"));
    };
    let issuer = anchor_of(alloc, *anchor, now)?;
    let said = below(alloc, &issuer, now, *checklist, (*name, *octets));
    drop(issuer);
    said
}

// Whether the file of a line is one of its checklist.
fn answer(alloc: Global, line: &str) -> Result<bool> {
    let words: Vec<&str> = line.split('\t').collect(alloc)?;
    answered(alloc, words.as_slice())
}

fn main(rt: HostRuntime) -> Result<()> {
    for line in rt.lines(rt.alloc()) {
        match answer(rt.alloc(), line?.as_str()) {
            Ok(true) => println!(rt; "listed")?,
            Ok(false) => println!(rt; "not listed")?,
            Err(error) => println!(rt; "refused: {error}")?,
        }
    }
    Ok(())
}
