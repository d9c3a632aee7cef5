//! What a certificate says of one kind of resources: nothing, `inherit`, or a set.

ghost use Rattle.std.specs.Prelude.{◌≡◌, ◌↔◌, IsTrue, IsErrOf, IfOk};
ghost use Rattle.resources_chain.specs.declared.choice.ResourcesChoice.{ResourcesChoice};
ghost use Rattle.resources_chain.specs.declared.choice.ResourcesChoice.TheVariants.{Missing, Inherit, Blocks};
ghost use Rattle.resources_chain.specs.declared.choice.InheritedResources.TheVariants.{Memory};
ghost use Rattle.resources_chain.specs.Choices.{choice_map, choice_text, MapsTo, TurnsInto};

use std::alloc::AllocError;
use std::error::Error;
use std::fmt;

/// What a certificate has of one kind of resources (RFC 3779 2.2.3.5 and 3.2.3.3).
#[derive(Clone, Debug, Drop, PartialEq, Eq)]
pub enum ResourcesChoice<T> {
    /// None of this kind are mentioned.
    Missing,
    /// Those of the issuer, whatever they are.
    Inherit,
    /// These, which may be none.
    Blocks(T),
}

impl<T> ResourcesChoice<T> {
    /// Whether the resources are those of the issuer.
    pub fn is_inherited(&self) -> bool
        ensures { IsTrue result ↔ (self.now ≡ Inherit) }
    {
        matches!(self, ResourcesChoice::Inherit)
    }

    /// Whether resources of this kind are mentioned: inherited, or listed.
    pub fn is_present(&self) -> bool
        ensures { IsTrue result ↔ ¬ (self.now ≡ Missing) }
    {
        !matches!(self, ResourcesChoice::Missing)
    }

    /// The choice with its set borrowed.
    pub fn as_ref(&self) -> ResourcesChoice<&T>
        ensures { choice_map (λ blocks. blocks.now) result ≡ self.now }
    {
        match self {
            ResourcesChoice::Missing => ResourcesChoice::Missing,
            ResourcesChoice::Inherit => ResourcesChoice::Inherit,
            ResourcesChoice::Blocks(blocks) => ResourcesChoice::Blocks(blocks),
        }
    }

    /// The choice with what the function makes of a set that is listed.
    pub fn map_blocks<U, F: FnOnce(T) -> U>(self, f: F) -> ResourcesChoice<U>
        requires { (blocks : T) → self ≡ Blocks blocks → F.pre f blocks }
        ensures { MapsTo (F.post f) self result }
    {
        match self {
            Self::Missing => ResourcesChoice::Missing,
            Self::Inherit => ResourcesChoice::Inherit,
            Self::Blocks(blocks) => ResourcesChoice::Blocks(f(blocks)),
        }
    }
}

impl<T: Clone + Default> ResourcesChoice<T> {
    /// The set that the choice lists, cloned; the default where there is none. Those of an issuer can't be given.
    pub fn to_blocks(&self) -> Result<T, InheritedResources>
        ensures ok { IfOk result (λ blocks. TurnsInto T.is_default T.is_clone self.now blocks) }
        ensures inherited { IsErrOf result InheritedResources.Inherited ↔ (self.now ≡ Inherit) }
    {
        match self {
            Self::Missing => Ok(T::default()),
            Self::Inherit => Err(InheritedResources::Inherited),
            Self::Blocks(blocks) => Ok(blocks.clone()?),
        }
    }
}

/// Nothing, `inherit`, or the set.
impl<T: fmt::Display> fmt::Display for ResourcesChoice<T> {
    ghost output = { λ choice. choice_text T.output choice };

    fn fmt<W: fmt::Write>(&self, f: &mut fmt::Formatter<W>) -> fmt::Result {
        match self {
            ResourcesChoice::Missing => Ok(()),
            ResourcesChoice::Inherit => f.write_str("inherit"),
            ResourcesChoice::Blocks(blocks) => blocks.fmt(f),
        }
    }
}

/// Why the set of a choice can't be given.
#[derive(Clone, Copy, Debug, PartialEq, Eq)]
pub enum InheritedResources {
    /// It is the issuer's.
    Inherited,
    /// No memory is left.
    Memory,
}

impl fmt::Display for InheritedResources {
    fn fmt<W: fmt::Write>(&self, f: &mut fmt::Formatter<W>) -> fmt::Result {
        match self {
            InheritedResources::Inherited => f.write_str("inherited resources"),
            InheritedResources::Memory => f.write_str("out of memory"),
        }
    }
}

impl Error for InheritedResources {}

impl From<AllocError> for InheritedResources {
    ghost from_gives = { λ _ e. e ≡ Memory };

    fn from(_: AllocError) -> Self {
        InheritedResources::Memory
    }
}
