//! What certificates, revocation lists and signed objects share: names, serial numbers, times, keys, signatures, URIs, and the
//! causes of refusals.

pub use certs_x509::crypto::{
    DigestAlgorithm, Digester, RpkiSignature, RpkiSignatureAlgorithm, Signature,
    SignatureAlgorithm, Signer, SigningError, Verifier,
};
pub use certs_x509::name::InvalidName;
pub use certs_x509::signed::SignedDataValues;
pub use certs_x509::time::{GeneralizedTime, TimeText, ValidityError, ValidityValue, VariedTime};
pub use certs_x509::uri::{Error as UriError, Https, Rsync};
pub use certs_x509::{
    ClaimedKind, Clock, InspectionError, KeyIdentifier, Name, Overclaimed, PublicKey,
    PublicKeyFormat, Serial, SignedData, TalInfo, Time, ValidationError, Validity,
    VerificationError,
};
