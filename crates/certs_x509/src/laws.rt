//! Laws of these values: each is the contract of a function that does nothing.
//!
//! What is written is read again, a value has one meaning, and orders and hashes agree with equality.

pub use crate::signed::laws::{
    one_meaning as one_signed_data, what_is_written_is_read as signed_data_is_read_again,
};
pub use certs_basics::time::laws::{
    one_meaning as one_time, one_time_is_written, order_agrees_with_equality as time_equality,
    times_are_read_again, validity_is_read_again,
};
pub use certs_basics::uri::laws::{
    general_names_are_read, https_equality, lookup_key_of_uri, lookup_key_twice, rsync_equality,
};
pub use certs_key::laws::{
    encoded_is_der, identifier_equality, key_equality, key_names_pass_inspection, name_equality,
    names_are_read_again, one_meaning as one_key, one_serial,
    order_and_hash_agree_with_equality as serial_equality, serials_are_read_again,
    what_is_written_is_read as keys_are_read_again,
};
