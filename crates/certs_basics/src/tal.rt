//! What trust anchor locators are called.

ghost use Rattle.std.specs.Prelude.{◌≡◌, IfOk, string_bytes};

use std::alloc::{AllocError, Global};
use std::marker::Model;
use std::rc::Rc;

/// What a trust anchor locator is called, by which what is validated below it is told apart. Contracts see the name;
/// equality, order and hash are those of its text.
#[derive(Debug, Drop, PartialEq, Eq, PartialOrd, Ord, Hash)]
pub struct TalInfo {
    name: String,
}

impl Model for TalInfo {
    ghost use Rattle.std.specs.Prelude.{String};
    ghost use Rattle.std.specs.declared.alloc.Global.{Global};

    ghost Value = { String Global };

    ghost view = { λ t. t.name };

    ghost inverse = { λ text. record { name = text } };
}

impl TalInfo {
    /// The locator of that name.
    pub fn from_name(name: String) -> Self
        ensures { result ≡ name }
    {
        TalInfo { name }
    }

    /// The name, to be shared by all that is validated below the locator.
    pub fn into_rc(self, alloc: Global) -> Result<Rc<TalInfo>, AllocError>
        ensures { IfOk result (λ shared. shared.value ≡ self) }
    {
        Ok(Rc::new(alloc, self)?)
    }

    /// The name.
    pub fn name(&self) -> &str
        ensures { result.now ≡ string_bytes self.now }
    {
        self.name.as_str()
    }
}

/// A clone has the same name.
impl Clone for TalInfo {
    ghost is_clone = { λ info copy. string_bytes copy ≡ string_bytes info };

    fn clone(&self) -> Result<Self, AllocError> {
        Ok(TalInfo {
            name: self.name.clone()?,
        })
    }
}
