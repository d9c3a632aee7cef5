//! `rpki_ask` answers questions about a bundle on standard input: `judge`, `reach`, `why`, `refusals` and `cost`.
#![tactic(auto)]

use rpki_questions::{Counted, ask_program};
use std::process::ExitCode;
use std::{env, io};

// All arguments; an error for one that isn't UTF-8, too.
fn arguments(rt: &HostRuntime) -> io::Result<Vec<String>> {
    Ok(env::args(rt)?.collect(rt.alloc())?)
}

fn main(rt: HostRuntime) -> ExitCode {
    let arguments = arguments(&rt);
    ExitCode::from(ask_program(
        rt.alloc(),
        &arguments,
        &mut Counted::new(rt.stdin()),
        &mut Counted::new(rt.stdout()),
        &mut rt.stderr(),
    ))
}
