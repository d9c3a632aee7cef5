//! What signed objects attest: the contents of route origin attestations ([`roa`], RFC 9582 4) and of provider attestations
//! ([`aspa`], draft-ietf-sidrops-aspa-profile 3), and whether these are within what is held ([`covered`]). [`forms`] passes
//! on what these contents are made of; the definitions of all signed objects stand here, manifests among them, with the laws
//! of strict and relaxed reading ([`relaxed`]). Locators ([`locator`], RFC 8630) are read of readers that count their failures
//! ([`counted`]).
#![tactic(auto)]

pub mod aspa;
pub mod counted;
pub mod covered;
pub mod forms;
pub mod locator;
pub mod relaxed;
pub mod roa;
