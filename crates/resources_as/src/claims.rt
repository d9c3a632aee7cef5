//! AS numbers that are listed and that the issuer doesn't hold.

ghost use Rattle.std.specs.Prelude.{◌≡◌, ◌++◌, Some, codes};
ghost use Rattle.resources_as.specs.Texts.{as_set_text};

use crate::blocks::AsBlocks;
use std::error::Error;
use std::fmt;
use std::marker::Model;

/// The AS numbers that a certificate lists and that its issuer doesn't hold. Contracts see their runs.
#[derive(Clone, Debug, Drop, PartialEq, Eq)]
pub struct OverclaimedAsResources {
    blocks: AsBlocks,
}

impl Model for OverclaimedAsResources {
    ghost use Rattle.std.specs.Prelude.{List};
    ghost use Rattle.resources_as.specs.resources_chain.Sets.{Run};

    ghost Value = { List Run };

    ghost view = { λ a. a.blocks };

    ghost inverse = { λ runs. record { blocks = runs } };
}

impl OverclaimedAsResources {
    /// The refusal of these AS numbers.
    pub(crate) fn new(blocks: AsBlocks) -> Self
        ensures { result ≡ blocks }
    {
        OverclaimedAsResources { blocks }
    }

    /// The AS numbers.
    pub fn blocks(&self) -> &AsBlocks
        ensures { result.now ≡ self.now }
    {
        &self.blocks
    }

    /// The AS numbers, handed over.
    pub fn into_blocks(self) -> AsBlocks
        ensures { result ≡ self }
    {
        self.blocks
    }
}

/// `overclaimed AS resources: ` and the set.
impl fmt::Display for OverclaimedAsResources {
    ghost output = { λ set. Some (codes "overclaimed AS resources: " ++ as_set_text set) };

    fn fmt<W: fmt::Write>(&self, f: &mut fmt::Formatter<W>) -> fmt::Result {
        write!(f, "overclaimed AS resources: {}", self.blocks)
    }
}

impl Error for OverclaimedAsResources {}
