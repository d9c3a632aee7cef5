//! Certificates below an authority (RFC 6487 7.2, RFC 8360 4.2): which are below it, which are at a file of its publication
//! point for the walk, with what they then hold, and which are sound there for the judge.

pub mod below;
pub mod file;
pub mod sound;
