//! The AS numbers of providers, one by one.

ghost use Rattle.std.specs.Prelude.{◌≡◌, ◌≢◌, ◌∷◌, [], ℕ, List, IfErr, IfNone, IfSome};
ghost use Rattle.std.specs.Iterator.{YieldsFirstBy, item_count};
ghost use Rattle.objects_payload.specs.bcder_tree.Tags.{integer_tag};
ghost use Rattle.objects_payload.specs.bcder_source.declared.error.DecodeError.TheVariants.{Memory};
ghost use Rattle.objects_payload.specs.bcder_content.Captures.{rest_of};
ghost use Rattle.objects_payload.specs.bcder_content.Exact.{ReadsOptAs};
ghost use Rattle.objects_payload.specs.bcder_content.Here.{here};
ghost use Rattle.objects_payload.specs.resources_asn.Encodings.{IsAsId};
ghost use Rattle.objects_payload.specs.Listing.{Listing, one_listing};
ghost use Rattle.objects_payload.specs.Spelled.{SpellsAsIds, captured};

use resources_asn::decode::read_front;
use resources_asn::{Asn, Mode};
use std::marker::Model;

/// The AS numbers of providers, in their order, read one by one of their octets. Contracts see the list of those that
/// are left.
#[derive(Drop)]
pub struct ProviderAsIter<'a> {
    pub(crate) mode: Mode,
    pub(crate) octets: &'a [u8],
    ghost listing: { Listing (captured mode octets.now) } by { one_listing (captured mode octets.now) },
}

impl<'a> Model for ProviderAsIter<'a> {
    ghost use Rattle.std.specs.Prelude.{List, ℕ};

    ghost Value = { List ℕ };

    ghost view = { λ p. p.listing.0 };
}

// The first of the AS numbers that the octets spell, and the octets after it; nothing of no octets.
fn split_first(octets: &[u8], mode: Mode) -> Option<(u32, &[u8])>
    ensures none { IfNone result ((numbers : List ℕ)
        → SpellsAsIds (captured mode octets.now) numbers → numbers ≡ []) }
    ensures some { IfSome result (λ r. (numbers : List ℕ)
        → SpellsAsIds (captured mode octets.now) numbers
        → (others : List ℕ) × SpellsAsIds (captured mode r.1.now) others
        × (numbers ≡ r.0 ∷ others)) }
{
    match read_front(
        octets,
        mode,
        |cons|
            ensures reads { ReadsOptAs (λ a. a.value) integer_tag IsAsId
                (here rest_of cons.old) result (here rest_of cons.new) }
            ensures no_memory { IfErr result (λ e. e ≢ Memory) }
        { Asn::take_opt_from(cons) },
    ) {
        Ok((Some(asn), count)) => {
            let (_, behind) = octets.split_at(count);
            Some((asn.into_u32(), behind))
        }
        Ok((None, _)) => None,
        Err(_) => None,
    }
}

impl<'a> Iterator for ProviderAsIter<'a> {
    type Item = Asn;

    ghost next_gives = { YieldsFirstBy (λ a. a.value) (λ s. s) };

    ghost remaining = { item_count (λ s. s) };

    fn next(&mut self) -> Option<Asn> {
        let (number, behind) = split_first(self.octets, self.mode)?;
        self.octets = behind;
        Some(Asn::from_u32(number))
    }
}
