//! Families and prefixes that are read from an encoding (RFC 3779 2.2.3.3, 2.2.3.8).

ghost use Rattle.std.specs.Prelude.{◌≡◌, ◌≢◌, ◌↔◌, ◌%◌, ◌^◌, ◌<◌, ◌≤◌, true, length, IfErr, IfNone, IfSome, IsTrue, OnErr};
ghost use Rattle.resources_ip_prefix.specs.bcder_tree.Strings.{octet_string_tag};
ghost use Rattle.resources_ip_prefix.specs.bcder_source.Errors.{OnlyContent};
ghost use Rattle.resources_ip_prefix.specs.bcder_source.declared.error.DecodeError.TheVariants.{Memory};
ghost use Rattle.resources_ip_prefix.specs.bcder_octets.BitContents.{bit_string_tag, last_octet};
ghost use Rattle.resources_ip_prefix.specs.bcder_octets.Parts.{IsWhole};
ghost use Rattle.resources_ip_prefix.specs.bcder_octets.Wants.{WantsNext, WantsString};
ghost use Rattle.resources_ip_prefix.specs.bcder_primitive.Plain.{plain, ReadsOctetsAs};
ghost use Rattle.resources_ip_prefix.specs.bcder_content.Exact.{ReadsAs, ReadsOptAs};
ghost use Rattle.resources_ip_prefix.specs.bcder_content.Here.{here};
ghost use Rattle.resources_ip_prefix.specs.bcder_content.Memory.{OnMemory};
ghost use Rattle.resources_ip_prefix.specs.bcder_content.Tagged.{ReadsTagged};
ghost use Rattle.resources_ip_prefix.specs.Encodings.{AreAddressOctets, AreUnused, FirstBits, IsAddress, IsAnyFamily, IsFamily, IsFamilyIn, filled, prefix_bits};

use crate::addr::{Addr, AddressFamily};
use crate::prefix::Prefix;
use bcder::decode::whole::{front, pass, refuse, request_all};
use bcder::decode::{Constructed, Content, ContentError, DecodeError, Primitive, Source};
use bcder::{Mode, OctetString, Tag};
use std::alloc::Global;

// The family of the content of an OCTET STRING. Memory is wanted only where it is one.
fn family_in<S: Source>(
    alloc: Global,
    content: &mut Content<'_, S>,
) -> Result<AddressFamily, DecodeError<S::Error>>
    ensures reads { ReadsTagged S.rest (λ f. f) IsFamilyIn content.old result content.new }
    ensures memory { IfErr result (λ e. OnMemory e (WantsString IsWhole S.rest content.old)) }
{
    let octets = OctetString::from_content(alloc, content)?;
    if octets.is_slice(&[0, 1]) {
        return Ok(AddressFamily::Ipv4);
    }
    if octets.is_slice(&[0, 2]) {
        return Ok(AddressFamily::Ipv6);
    }
    Err(unknown_family(content))
}

// The refusal of octets that are no family's.
fn unknown_family<S: Source>(content: &Content<'_, S>) -> DecodeError<S::Error>
    ensures { OnlyContent result (Unit {0}) }
{
    content.content_err(ContentError::from_static("unknown address family"))
}

impl AddressFamily {
    /// The next value, the number of a family in two octets (RFC 3779 2.2.3.3): `00 01` or `00 02`. Any other is
    /// refused, one with a third octet, too. Memory is wanted only as by `OctetString::take_from`, where one is
    /// next.
    pub fn take_from<S: Source>(
        alloc: Global,
        cons: &mut Constructed<S>,
    ) -> Result<AddressFamily, DecodeError<S::Error>>
        ensures reads { ReadsAs (λ f. f) (IsFamily (here S.rest cons.old).mode)
            (here S.rest cons.old) result (here S.rest cons.new) }
        ensures failed { OnErr result ((here S.rest cons.new).failed ≡ true) }
        ensures memory { IfErr result
            (λ e. OnMemory e (WantsNext IsWhole octet_string_tag (here S.rest cons.old))) }
    {
        cons.take_value_if(
            Tag::OCTET_STRING,
            |content|
                ensures reads { ReadsTagged S.rest (λ f. f) IsFamilyIn
                    content.old result content.new }
                ensures memory { IfErr result
                    (λ e. OnMemory e (WantsString IsWhole S.rest content.old)) }
            { family_in(alloc, content) },
        )
    }

    /// Reads a family where an OCTET STRING is next; else nothing is read. Memory is wanted as by `take_from`.
    pub fn take_opt_from<S: Source>(
        alloc: Global,
        cons: &mut Constructed<S>,
    ) -> Result<Option<AddressFamily>, DecodeError<S::Error>>
        ensures reads { ReadsOptAs (λ f. f) octet_string_tag (IsFamily (here S.rest cons.old).mode)
            (here S.rest cons.old) result (here S.rest cons.new) }
        ensures failed { OnErr result ((here S.rest cons.new).failed ≡ true) }
        ensures memory { IfErr result
            (λ e. OnMemory e (WantsNext IsWhole octet_string_tag (here S.rest cons.old))) }
    {
        cons.take_opt_value_if(
            Tag::OCTET_STRING,
            |content|
                ensures reads { ReadsTagged S.rest (λ f. f) IsFamilyIn
                    content.old result content.new }
                ensures memory { IfErr result
                    (λ e. OnMemory e (WantsString IsWhole S.rest content.old)) }
            { family_in(alloc, content) },
        )
    }

    /// Goes past a family, where an OCTET STRING is next; what `take_opt_from` refuses is refused. Memory is wanted as
    /// by `take_from`.
    pub fn skip_opt_in<S: Source>(
        alloc: Global,
        cons: &mut Constructed<S>,
    ) -> Result<Option<()>, DecodeError<S::Error>>
        ensures reads { ReadsOptAs (λ x. x) octet_string_tag
            (IsAnyFamily (here S.rest cons.old).mode) (here S.rest cons.old) result
            (here S.rest cons.new) }
        ensures failed { OnErr result ((here S.rest cons.new).failed ≡ true) }
        ensures memory { IfErr result
            (λ e. OnMemory e (WantsNext IsWhole octet_string_tag (here S.rest cons.old))) }
    {
        match AddressFamily::take_opt_from(alloc, cons)? {
            Some(_) => Ok(Some(())),
            None => Ok(None),
        }
    }
}

// The number of 16 octets: these, and zeros after them.
#[tactic(auto, using(crate::proofs::Filled::filled_first, crate::proofs::Filled::filled_within))]
fn filled_of(octets: &[u8]) -> u128
    requires { length octets.now ≤ 16 }
    ensures { result ≡ filled 16 octets.now }
{
    let Some((first, rest)) = octets.split_first() else {
        return 0;
    };
    (u128::from(*first) << 120) + (filled_of(rest) >> 8)
}

// Whether the unused bits of the last octet are zeros.
fn is_clear(unused: u8, octets: &[u8]) -> bool
    requires { unused < 8 }
    ensures { IsTrue result ↔ (last_octet octets.now % 2 ^ unused ≡ 0) }
{
    let Some((first, rest)) = octets.split_first() else {
        return true;
    };
    if rest.is_empty() {
        return *first % (1 << unused) == 0;
    }
    is_clear(unused, rest)
}

// Whether so many bits may be unused, with the values that they have (X.690 8.6.2, 11.2.1).
fn are_unused(mode: Mode, unused: u8, octets: &[u8]) -> bool
    ensures { IsTrue result ↔ AreUnused mode unused octets.now }
{
    if unused >= 8 || (octets.is_empty() && unused > 0) {
        return false;
    }
    match mode {
        Mode::Ber => true,
        Mode::Cer | Mode::Der => is_clear(unused, octets),
    }
}

// The prefix that content octets of a BIT STRING state: no more bits than an address of the family has.
#[tactic(auto, using(crate::proofs::Filled::bits_counted, crate::proofs::Filled::bits_lawful))]
fn stated(mode: Mode, family: AddressFamily, content: &[u8]) -> Option<Prefix>
    ensures found { IfSome result (λ p. AreAddressOctets family mode content.now (prefix_bits p)) }
    ensures none { IfNone result
        ((b : FirstBits) → AreAddressOctets family mode content.now b → ⊥) }
{
    let (unused, octets) = content.split_first()?;
    let unused = *unused;
    if octets.len() > 16 || !are_unused(mode, unused, octets) {
        return None;
    }
    let len = 8 * octets.len() as u8 - unused;
    if len > family.max_addr_len() {
        return None;
    }
    Some(Prefix::new(Addr::from_bits(filled_of(octets)), len))
}

// The prefix of a content. No octet is copied, and no memory is taken.
fn take_prefix<S: Source>(
    family: AddressFamily,
    prim: &mut Primitive<S>,
) -> Result<Prefix, DecodeError<S::Error>>
    ensures reads { ReadsOctetsAs prefix_bits
        (AreAddressOctets family (plain S.rest prim.old).mode) (plain S.rest prim.old) result
        (plain S.rest prim.new) }
    ensures failed { OnErr result ((plain S.rest prim.new).failed ≡ true) }
    ensures no_memory { IfErr result (λ e. e ≢ Memory) }
{
    let count = request_all(prim)?;
    match stated(prim.mode, family, front(prim, count)) {
        Some(prefix) => {
            pass(prim, count);
            Ok(prefix)
        }
        None => Err(refuse(prim, "no address prefix of the family")),
    }
}

impl Prefix {
    /// The next value, a BIT STRING (RFC 3779 2.2.3.8): the addresses of the family that begin with its bits. More
    /// bits than an address has are refused. No memory is taken.
    pub fn take_from<S: Source>(
        alloc: Global,
        cons: &mut Constructed<S>,
        family: AddressFamily,
    ) -> Result<Prefix, DecodeError<S::Error>>
        ensures reads { ReadsAs prefix_bits (IsAddress (here S.rest cons.old).mode family)
            (here S.rest cons.old) result (here S.rest cons.new) }
        ensures failed { OnErr result ((here S.rest cons.new).failed ≡ true) }
        ensures no_memory { IfErr result (λ e. e ≢ Memory) }
    {
        cons.take_primitive_if(Tag::BIT_STRING, |prim| take_prefix(family, prim))
    }

    /// Reads a prefix where a BIT STRING is next; else nothing is read. No memory is taken.
    pub fn take_opt_from<S: Source>(
        alloc: Global,
        cons: &mut Constructed<S>,
        family: AddressFamily,
    ) -> Result<Option<Prefix>, DecodeError<S::Error>>
        ensures reads { ReadsOptAs prefix_bits bit_string_tag
            (IsAddress (here S.rest cons.old).mode family) (here S.rest cons.old) result
            (here S.rest cons.new) }
        ensures failed { OnErr result ((here S.rest cons.new).failed ≡ true) }
        ensures no_memory { IfErr result (λ e. e ≢ Memory) }
    {
        cons.take_opt_primitive_if(Tag::BIT_STRING, |prim| take_prefix(family, prim))
    }
}
