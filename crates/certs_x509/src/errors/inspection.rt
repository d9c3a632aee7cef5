//! Tests of the form of a certificate.

pub use certs_extension::forms::InspectionError;
