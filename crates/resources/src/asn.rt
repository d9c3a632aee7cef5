//! AS numbers, read and written, small sets of them, and origins in the order in which they are listed.

pub use resources_as::{
    Asn, Origin, ParseAsnError, SmallAsnSet, SmallSetDifference, SmallSetIntersection,
    SmallSetIter, SmallSetSymmetricDifference, SmallSetUnion,
};
