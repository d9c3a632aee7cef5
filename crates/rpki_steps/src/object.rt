//! Signed objects at an authority's publication point (RFC 6488 3): what a file attests, by what the authority holds; what is
//! sound there, claims apart; and the numbers that an object needs of its chain.

pub mod found;
pub mod needs;
pub mod payload;
