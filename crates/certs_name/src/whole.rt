//! Contents of primitive values that are read as a whole.

ghost use Rattle.std.specs.Prelude.{◌≡◌, ◌≢◌, List, ℕ, IfErr, IfNone, IfSome, OnErr, Some, true};
ghost use Rattle.certs_name.specs.bcder_source.declared.error.DecodeError.TheVariants.{Memory};
ghost use Rattle.certs_name.specs.bcder_primitive.Plain.{plain, ReadsOctetsAs};
ghost use Rattle.certs_name.specs.Inspected.{IsTextOf};

use certs_basics::decode::whole::{front, pass, refuse, request_all};
use certs_basics::decode::{DecodeError, Primitive, Source};
use certs_basics::string::CharSet;

/// What content octets tell, if they tell something.
pub(crate) trait Told: Drop {
    ghost tells: { List ℕ → Self → Type 0 };

    /// What the octets tell.
    fn told(octets: &[u8]) -> Option<Self>
    where
        Self: Sized,
        ensures found { IfSome result (tells octets.now) }
        ensures none { IfNone result ((x : Self) → tells octets.now x → ⊥) };
}

/// What all octets of a content say; a content that says nothing is refused. No octet is copied.
pub(crate) fn take_told<T: Told, S: Source>(
    prim: &mut Primitive<S>,
) -> Result<T, DecodeError<S::Error>>
    ensures reads { ReadsOctetsAs (λ x. x) T.tells
        (plain S.rest prim.old) result (plain S.rest prim.new) }
    ensures failed { OnErr result ((plain S.rest prim.new).failed ≡ true) }
    ensures no_memory { IfErr result (λ e. e ≢ Memory) }
{
    let count = request_all(prim)?;
    match T::told(front(prim, count)) {
        Some(value) => {
            pass(prim, count);
            Ok(value)
        }
        None => Err(refuse(prim, "invalid value")),
    }
}

/// Goes past a content that is a text of the set; any other is refused. No octet is copied.
pub(crate) fn skip_text<L: CharSet, S: Source>(
    prim: &mut Primitive<S>,
) -> Result<(), DecodeError<S::Error>>
    ensures reads { ReadsOctetsAs (λ x. x) (IsTextOf L.has L.spell)
        (plain S.rest prim.old) result (plain S.rest prim.new) }
    ensures failed { OnErr result ((plain S.rest prim.new).failed ≡ true) }
    ensures no_memory { IfErr result (λ e. e ≢ Memory) }
{
    let count = request_all(prim)?;
    match L::check(front(prim, count)) {
        Ok(()) => {
            pass(prim, count);
            Ok(())
        }
        Err(_) => Err(refuse(prim, "invalid character string")),
    }
}
