//! What stands at a publication point: whether a file that a manifest lists is there with its hash, the lookup keys of the
//! files, whether they differ by name and are all there, the revocation list, and whether a certificate is on it; and else
//! which test fails first (RFC 9286 6, RFC 6487 5).

pub mod crl;
pub mod files;
pub mod held;
pub mod kept;
pub mod keys;
pub mod list;
pub mod names;
pub mod revoked;

pub use certs_cert::{Rsync, decode};
pub use crl::find_crl;
pub use files::{check_files, files_of};
pub use held::check_held;
pub use kept::Crl;
pub use keys::{key_at, key_in};
pub use list::check_said;
pub use names::differ_by_name;
pub use revoked::check_revocation;
pub use rpki_rules::listed::is_listed;
