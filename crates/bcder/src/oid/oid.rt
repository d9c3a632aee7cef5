//! Object identifiers.

ghost use Rattle.std.specs.Prelude.{◌≡◌, ◌↔◌, IsTrue, nat_eq, Some};
ghost use Rattle.std.specs.Cmp.{on_equiv, on_per, partial_equiv_from_equiv};
ghost use Rattle.std.specs.Cmp.Lexicographic.{pointwise, nat_list_eq_equiv};
ghost use Rattle.std.specs.Cmp.Rules.{hashing};
ghost use Rattle.std.specs.Fmt.{DisplaysOnOk};
ghost use Rattle.std.specs.Hash as fed;
ghost use Rattle.std.proofs.Common.{rules};
ghost use Rattle.bcder.specs.Components.{components_of, HasComponents};
ghost use Rattle.bcder.specs.Printed.{oid_text, behind_dots};

pub use crate::oid::component::Component;
pub use crate::oid::iter::Iter;
pub use crate::oid::text::ParseOidError;
use bytes::Bytes;
use std::convert::AsSlice;
use std::fmt;
use std::hash::{Hash, Hasher};

/// An object identifier, by its content octets (X.690 8.19): one or more subidentifiers, one after the other.
///
/// What is read is so. What is made by hand may be any octets: components are those of the whole subidentifiers
/// in front.
#[derive(Clone, Copy, Debug, Drop)]
pub struct Oid<T = Bytes>(pub T);

/// An object identifier in a constant.
pub type ConstOid = Oid<&'static [u8]>;

impl<T: AsSlice<u8>> Oid<T> {
    /// The content octets.
    pub fn as_slice(&self) -> &[u8]
        ensures { result.now ≡ T.items self.now.0 }
    {
        self.0.as_slice()
    }

    /// Whether both have the same octets.
    pub fn equals<U: AsSlice<u8>>(&self, other: &Oid<U>) -> bool
        ensures { IsTrue result ↔ (T.items self.now.0 ≡ U.items other.now.0) }
    {
        self.as_slice() == other.as_slice()
    }

    /// The components, from the first on: of each whole subidentifier in front.
    ///
    /// There is one more than there are subidentifiers, and none where there are none.
    pub fn iter(&self) -> Iter<'_>
        ensures components { HasComponents (T.items self.now.0) result }
        ensures value { result ≡ components_of (T.items self.now.0) }
    {
        Iter::new(self.as_slice())
    }
}

/// Equal octets.
impl<T: AsSlice<u8>> PartialEq for Oid<T> {
    ghost eq = { λ x y. pointwise nat_eq (T.items x.0) (T.items y.0) };

    ghost laws = { on_per (λ x. T.items x.0) (partial_equiv_from_equiv nat_list_eq_equiv) };

    fn eq(&self, other: &Self) -> bool {
        self.as_slice() == other.as_slice()
    }
}

impl<T: AsSlice<u8>> Eq for Oid<T> {
    ghost laws = { on_equiv (λ x. T.items x.0) nat_list_eq_equiv };
}

/// By the octets alone.
impl<T: AsSlice<u8>> Hash for Oid<T> {
    ghost hash_input = { λ x. fed.slice fed.u8 (T.items x.0) };

    ghost respects_eq = { Prim.search (hashing, rules) };

    fn hash<H: Hasher>(&self, state: &mut H) {
        self.as_slice().hash(state);
    }
}

/// The components, with dots between them.
impl<T: AsSlice<u8>> fmt::Display for Oid<T> {
    ghost output = { λ x. Some (oid_text (T.items x.0)) };

    fn fmt<W: fmt::Write>(&self, f: &mut fmt::Formatter<W>) -> fmt::Result {
        let mut components = self.iter();
        let Some(first) = components.next() else {
            return Ok(());
        };
        write!(f, "{first}")?;
        write_behind(components, f)
    }
}

// Writes components, each after a dot.
fn write_behind<W: fmt::Write>(components: Iter<'_>, f: &mut fmt::Formatter<W>) -> fmt::Result
    ensures { DisplaysOnOk W.Write.write_str_gives f.old result
        (Some (behind_dots components.entry)) f.new }
{
    for component in components {
        write!(f, ".{component}")?;
    }
    Ok(())
}
