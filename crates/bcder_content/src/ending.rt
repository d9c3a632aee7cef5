//! How contents end.

/// How a content of values ends (X.690 8.1.3, 8.1.5).
#[derive(Clone, Copy, Debug, PartialEq, Eq)]
pub enum Ending {
    /// Where its limit is reached.
    Definite,
    /// Before end-of-contents.
    Indefinite,
    /// Where the source ends.
    Unbounded,
}

/// How a value that is being read ends, and what comes after it.
#[derive(Clone, Copy, Debug, Default, PartialEq, Eq)]
pub enum Span {
    /// Where its limit is reached; and then this is the limit around it.
    Until(Option<usize>),
    /// With end-of-contents.
    #[default]
    ToEnd,
}
