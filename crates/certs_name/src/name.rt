//! Names (RFC 5280 4.1.2.4).

ghost use Rattle.std.proofs.Common.{rules};
ghost use Rattle.std.specs.Prelude.{◌≡◌, IfOk, OnErr, nat_eq, true};
ghost use Rattle.std.specs.Cmp.{on_equiv, on_per, partial_equiv_from_equiv};
ghost use Rattle.std.specs.Cmp.Lexicographic.{nat_list_eq_equiv, pointwise};
ghost use Rattle.certs_name.specs.bcder_tree.declared.mode.Mode.TheVariants.{Der};
ghost use Rattle.certs_name.specs.bcder_content.Captures.{rest_of};
ghost use Rattle.certs_name.specs.bcder_content.Contents.{Goes};
ghost use Rattle.certs_name.specs.bcder_content.Exact.{ReadsAs};
ghost use Rattle.certs_name.specs.bcder_content.Here.{here};
ghost use Rattle.certs_name.specs.bcder_content.Kept.{SpellsValues};
ghost use Rattle.certs_basics.specs.Names.{IsKeptName, SpellsName};
ghost use Rattle.certs_name.specs.AnyNames.{IsAnyName};
ghost use Rattle.certs_name.specs.Named.{IsNamed};

use crate::skim::skip_name;
use bytes::Bytes;
use certs_basics::decode::{Constructed, DecodeError, Source};
use certs_basics::{Captured, Mode};
use std::alloc::{AllocError, Global};
use std::marker::Model;

/// The name of an issuer or a subject, kept as it stood: octets, and the mode in which they spell a name
/// (RFC 5280 4.1.2.4). Contracts see both. Copies share the octets.
#[derive(Debug, Drop)]
pub struct Name {
    octets: Bytes,
    mode: Mode,
}

impl Model for Name {
    ghost use Rattle.certs_name.specs.bcder_content.Kept.{CapturedValue};

    ghost Value = { CapturedValue };

    ghost use Rattle.certs_name.specs.Named.{IsNamed};

    ghost view = { λ n. record { mode = n.mode; octets = n.octets } };

    ghost invariant = { λ n. IsNamed (record { mode = n.mode; octets = n.octets }) };
}

impl Name {
    // The name that captured octets spell.
    fn new(captured: Captured) -> Name
        requires { IsNamed captured }
        ensures { result ≡ captured }
    {
        let mode = captured.mode();
        Name {
            octets: captured.into_bytes(),
            mode,
        }
    }

    // The name that octets spell in DER.
    pub(crate) fn from_der(octets: Vec<u8>) -> Result<Name, AllocError>
        requires { IsNamed (record { mode = Der; octets = octets.items }) }
        ensures { IfOk result (λ n. n ≡ record { mode = Der; octets = octets.items }) }
    {
        Ok(Name {
            octets: Bytes::from_vec(octets)?,
            mode: Mode::Der,
        })
    }

    /// The name that is next, with the very octets that stand there (RFC 5280 4.1.2.4):
    /// `SEQUENCE OF SET OF SEQUENCE { type OBJECT IDENTIFIER, value ANY }`. Any other value is refused. Which
    /// attributes there are isn't looked at.
    pub fn take_from<S: Source>(
        alloc: Global,
        cons: &mut Constructed<S>,
    ) -> Result<Name, DecodeError<S::Error>>
        ensures reads { ReadsAs (λ n. n) (IsKeptName (here S.rest cons.old).mode)
            (here S.rest cons.old) result (here S.rest cons.new) }
        ensures octets { IfOk result (λ n.
            Goes (here S.rest cons.old) n.octets (here S.rest cons.new)) }
        ensures spells { IfOk result (λ n. SpellsName (here S.rest cons.old).mode n.octets n) }
        ensures failed { OnErr result ((here S.rest cons.new).failed ≡ true) }
    {
        let captured = cons.capture(
            alloc,
            |cons|
                ensures { ReadsAs (λ x. x) IsAnyName
                    (here rest_of cons.old) result (here rest_of cons.new) }
            { skip_name(alloc, cons) },
        );
        match captured {
            Ok(captured) => Ok(Name::new(captured)),
            Err(error) => {
                cons.fail();
                Err(error)
            }
        }
    }

    /// In which mode the octets spell the name.
    pub fn mode(&self) -> Mode
        ensures { result ≡ self.now.mode }
    {
        self.mode
    }

    /// The octets of the name, its tag and length included.
    pub fn as_slice(&self) -> &[u8]
        ensures octets { result.now ≡ self.now.octets }
        ensures spelled { IsNamed self.now }
        ensures values { SpellsValues self.now.mode self.now.octets }
    {
        self.octets.as_slice()
    }
}

/// A clone is an equal name. It takes no memory, but a count of copies can be full.
impl Clone for Name {
    ghost is_clone = { λ name copy. copy ≡ name };

    fn clone(&self) -> Result<Name, AllocError> {
        Ok(Name {
            octets: self.octets.clone()?,
            mode: self.mode,
        })
    }
}

/// Equal octets.
impl PartialEq for Name {
    ghost eq = { λ x y. pointwise nat_eq x.octets y.octets };

    ghost laws = { on_per (λ n. n.octets) (partial_equiv_from_equiv nat_list_eq_equiv) };

    fn eq(&self, other: &Name) -> bool {
        self.as_slice() == other.as_slice()
    }
}

impl Eq for Name {
    ghost laws = { on_equiv (λ n. n.octets) nat_list_eq_equiv };
}
