//! Laws of strict and relaxed reading: signed objects that are read strictly, in DER (X.690 10), are read relaxed, in BER
//! (X.690 8), with the same fields and contents, and are tested alike. They are the contracts of functions that do nothing.
//!
//! Contents are in DER in either mode. A value that is read keeps no mode but in its certificate: what is signed there, and
//! two names, are kept as octets with the mode in which they stand.

pub use objects_payload::relaxed::{
    aspas_stay, forms_are_kept, inspection_answers_alike, manifests_stay, names_and_certs_stay,
    objects_stay, roas_stay, soundness_is_alike,
};
