//! AS numbers (RFC 6793), and small sets of them; and blocks of them ([`as_block`]).
#![tactic(auto)]

pub mod as_block;
pub mod asn;
pub mod codec;
mod der;
pub mod laws;
pub mod origin;
mod selection;
pub mod small_set;

pub use asn::{Asn, ParseAsnError};
pub use origin::Origin;
pub use resources_ip_prefix::codec::{Mode, Tag, decode, encode};
pub use resources_ip_prefix::{Captured, ConstOid, Oid};
pub use small_set::{
    SmallAsnSet, SmallSetDifference, SmallSetIntersection, SmallSetIter,
    SmallSetSymmetricDifference, SmallSetUnion,
};
