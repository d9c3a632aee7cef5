//! Encoding modes.
ghost use Rattle.std.specs.Prelude.{◌≡◌, ◌↔◌, IsTrue};

/// The encoding rules by which octets spell values (X.690 clauses 8 to 10).
#[derive(Clone, Copy, Debug, PartialEq, Eq, Hash)]
pub enum Mode {
    /// Basic Encoding Rules (clause 8).
    Ber,
    /// Canonical Encoding Rules (clause 9).
    Cer,
    /// Distinguished Encoding Rules (clause 10).
    Der,
}

impl Mode {
    /// Whether these are the Basic Encoding Rules.
    pub fn is_ber(self) -> bool
        ensures { IsTrue result ↔ (self ≡ Mode.Ber) }
    {
        self == Mode::Ber
    }

    /// Whether these are the Canonical Encoding Rules.
    pub fn is_cer(self) -> bool
        ensures { IsTrue result ↔ (self ≡ Mode.Cer) }
    {
        self == Mode::Cer
    }

    /// Whether these are the Distinguished Encoding Rules.
    pub fn is_der(self) -> bool
        ensures { IsTrue result ↔ (self ≡ Mode.Der) }
    {
        self == Mode::Der
    }
}
