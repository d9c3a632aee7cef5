//! Why signed attributes are refused (RFC 6488 2.1.6.4).

ghost use Rattle.std.specs.Prelude.{◌≡◌, ◌≤◌, length};
ghost use Rattle.objects_cms.specs.Invalid.{invalid_text};

use objects_payload::forms::decode::ContentError;
use thiserror::Error as ThisError;

/// What is wrong with signed attributes.
#[derive(Clone, Copy, Debug, PartialEq, Eq, ThisError, Drop)]
pub enum InvalidSignedAttr {
    /// An attribute that has to be there isn't.
    #[error("a missing attribute")]
    Missing,
    /// An attribute of that kind was there before.
    #[error("duplicate attribute")]
    Duplicate,
    /// An attribute is of another kind than the four that may be there.
    #[error("another attribute")]
    Unknown,
}

impl InvalidSignedAttr {
    // The error's text.
    fn text(self) -> &'static str
        ensures text { result.now ≡ invalid_text self }
        ensures short { length result.now ≤ 64 }
    {
        match self {
            InvalidSignedAttr::Missing => "a missing attribute",
            InvalidSignedAttr::Duplicate => "duplicate attribute",
            InvalidSignedAttr::Unknown => "another attribute",
        }
    }
}

impl From<InvalidSignedAttr> for ContentError {
    ghost use Rattle.objects_cms.specs.bcder_source.declared.error.ContentError.TheVariants.{Static};

    ghost from_gives = { λ cause e. e ≡ Static (invalid_text cause) };

    fn from(cause: InvalidSignedAttr) -> Self {
        ContentError::from_static(cause.text())
    }
}
