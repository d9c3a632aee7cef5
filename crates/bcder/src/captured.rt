//! Values that are kept as they are spelled, and put together of encoded ones.

pub use bcder_octets::CapturedBuilder;
pub use bcder_octets::bcder_content::Captured;
