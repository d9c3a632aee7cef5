//! Laws of the resources, by the part that they are of: each is the contract of a function that does nothing.
//!
//! | Module | Has |
//! |---|---|
//! | [`addr`] | strict prefixes: the addresses that they have, their order, and their texts |
//! | [`chain`] | sets of any kind: equal lists are equal sets, and what two sets have in common and apart |
//! | [`asres`] | AS resources: a value has one meaning, and what is written means just that |
//! | [`ipres`] | IP resources: a value has one meaning, what is written is read as the same, and what prefixes are |
//! | [`policy`] | the octets of the identifiers of a policy |
//! | [`set`] | sets of all three kinds: what changes lead from one to another |

pub use crate::set::laws as set;
pub use resources_as::laws as asres;
pub use resources_as::policy::laws as policy;
pub use resources_chain::laws as chain;
pub use resources_ip::ip_addr::laws as addr;
pub use resources_ip::laws as ipres;
