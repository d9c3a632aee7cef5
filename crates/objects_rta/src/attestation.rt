//! What resource tagged attestations say (draft-ietf-sidrops-rpki-rta; this project's profile).

pub mod content;
mod keys;

pub use content::ResourceTaggedAttestation;
