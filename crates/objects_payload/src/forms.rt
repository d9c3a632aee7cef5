//! What the contents of signed objects are made of, by its parts: numbers, addresses, moments, and what reads them.

pub use certs_extension::forms::{
    Addr, AddressFamily, AsBlock, AsBlocks, AsBlocksBuilder, AsResources, Asn, Captured, ConstOid,
    IpBlocks, Mode, OctetString, Oid, Origin, Prefix, Time, decode,
};
