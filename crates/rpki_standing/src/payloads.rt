//! What a file's name says, and what an object's content adds to a report.

pub mod laws;
pub mod names;
pub mod origins;
pub mod payload;
pub mod provisions;

pub use names::{Extension, extension_of};
pub use objects_payload::aspa::AsProviderAttestation;
pub use objects_payload::roa::{RoaIpAddress, RoaIpAddresses, RouteOriginAttestation};
pub use origins::add_roa_origins;
pub use payload::Payload;
pub use provisions::add_aspa_provisions;
pub use rpki_rules::{Origin, Provision};
