//! What of a claim isn't held: an example of a program on the sets of `resources` alone.
//!
//! Each line of standard input has a word and three texts, of AS numbers, IPv4 addresses and IPv6 addresses, with a tab
//! between. `hold` says what is held from here on, and is answered by it, joined and in order. `claim` is answered by
//! `inside` where all that it claims is held, and else by what isn't. [`claims`] has this with its contract.
#![tactic(auto)]

mod claims;

use anyhow::{Result, anyhow};
use claims::outside;
use resources::ResourceSet;
use std::alloc::Global;

// The answer to what is held from here on.
fn hold(alloc: Global, held: &mut ResourceSet, set: ResourceSet) -> Result<String> {
    *held = set;
    Ok(format!(in alloc; "held {held}")?)
}

// The answer to a claim.
fn claim(alloc: Global, held: &ResourceSet, claimed: ResourceSet) -> Result<String> {
    let found = outside(alloc, held, &claimed);
    drop(claimed);
    match found? {
        None => Ok("inside".to_string(alloc)?),
        Some(set) => Ok(format!(in alloc; "outside {set}")?),
    }
}

// The answer to a line, which may change what is held.
fn answer(alloc: Global, held: &mut ResourceSet, line: &str) -> Result<String> {
    let words: Vec<&str> = line.split('\t').collect(alloc)?;
    match words.as_slice() {
        ["hold", asn, v4, v6] => hold(alloc, held, ResourceSet::from_strs(alloc, *asn, *v4, *v6)?),
        ["claim", asn, v4, v6] => claim(
            alloc,
            held,
            ResourceSet::from_strs(alloc, *asn, *v4, *v6)?,
        ),
        [_, _, _, _] => Err(anyhow!("neither 'hold' nor 'claim'")),
        _ => Err(anyhow!("not a word and three texts")),
    }
}

fn main(rt: HostRuntime) -> Result<()> {
    let mut held = ResourceSet::empty();
    for line in rt.lines(rt.alloc()) {
        match answer(rt.alloc(), &mut held, line?.as_str()) {
            Ok(text) => println!(rt; "{text}")?,
            Err(error) => println!(rt; "refused: {error}")?,
        }
    }
    Ok(())
}
