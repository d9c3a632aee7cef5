//! IP resources of both families that are written as one value (RFC 3779 2.2.3.1).

ghost use Rattle.std.specs.Prelude.{◌≡◌, IfOk, IfErr, OnOk};
ghost use Rattle.resources_ip.specs.bcder_tree.Strings.{octet_string_tag};
ghost use Rattle.resources_ip.specs.bcder_tree.Tags.{sequence_tag};
ghost use Rattle.resources_ip.specs.bcder_primitive.Writing.{HasLength, Wrote, CannotWrite, WriteRefused};
ghost use Rattle.resources_ip.specs.resources_ip_prefix.declared.addr.AddressFamily.TheVariants.{Ipv4, Ipv6};
ghost use Rattle.resources_ip.specs.resources_ip_prefix.Encodings.{family_octets};
ghost use Rattle.resources_ip.specs.Reading.{family_choices};
ghost use Rattle.resources_ip.specs.WrittenFamilies.{FamiliesTrees, FamilyTrees, WritesFamilies, WritesFamily, both, families_one, families_spelled, family_one, family_spelled, is_said as is_said_of, says_any};

use crate::AddressFamily;
use crate::codec::encode::{Constructed, EncodeError, Values};
use crate::codec::string::OctetSliceEncoder;
use crate::codec::{Mode, Tag};
use crate::resources::{IpFamilies, IpResources};
use resources_chain::ResourcesChoice;
use std::io::Write;

// Whether anything is said of a family.
fn is_said(resources: &IpResources) -> bool
    ensures { result ≡ is_said_of resources.now }
{
    match resources.choice() {
        ResourcesChoice::Missing => false,
        ResourcesChoice::Inherit | ResourcesChoice::Blocks(_) => true,
    }
}

// Whether anything is said of one family at least.
fn is_any_said(v4: &IpResources, v6: &IpResources) -> bool
    ensures { result ≡ says_any (both v4.now v6.now) }
{
    is_said(v4) || is_said(v6)
}

// The encoders of a family's number and of what is said of it, in a SEQUENCE.
type FieldsEncoder<'a> = Constructed<(OctetSliceEncoder<&'static [u8]>, &'a IpResources)>;

// The fields of a family (RFC 3779 2.2.3.2).
fn fields<'a>(family: AddressFamily, resources: &'a IpResources) -> FieldsEncoder<'a>
    ensures sequence { result.tag ≡ sequence_tag }
    ensures family { (result.inner.0.tag ≡ octet_string_tag)
        × (result.inner.0.octets.now ≡ family_octets family) }
    ensures resources { result.inner.1.now ≡ resources.now }
{
    Constructed {
        tag: Tag::SEQUENCE,
        inner: (family.encode(), resources),
    }
}

// How many octets a family has when it is written.
fn family_len(
    family: AddressFamily,
    resources: &IpResources,
    mode: Mode,
) -> Result<usize, EncodeError>
    ensures len { IfOk result (HasLength (WritesFamily mode family resources.now)) }
    ensures refused { IfErr result
        (CannotWrite (FamilyTrees mode family resources.now)
        (WritesFamily mode family resources.now)) }
{
    if is_said(resources) {
        let value = fields(family, resources);
        return value.encoded_len(mode);
    }
    Ok(0)
}

// Writes a family.
fn write_family<W: Write>(
    family: AddressFamily,
    resources: &IpResources,
    mode: Mode,
    target: &mut W,
) -> Result<(), EncodeError>
    ensures written { OnOk result
        (Wrote (WritesFamily mode family resources.now) (W.contents target.old)
        (W.contents target.new)) }
    ensures refused { IfErr result
        (WriteRefused (FamilyTrees mode family resources.now)
        (WritesFamily mode family resources.now) (target.new ≡ target.old) (W.contents target.old)
        (W.contents target.new)) }
{
    if is_said(resources) {
        let value = fields(family, resources);
        return value.write_encoded(mode, target);
    }
    Ok(())
}

// What is said of one family, as it is written: nothing where it is missing.
#[derive(Drop)]
struct FamilyEncoder<'a> {
    family: AddressFamily,
    resources: &'a IpResources,
}

impl Values for FamilyEncoder<'_> {
    ghost trees = { λ x m. FamilyTrees m x.family x.resources.now };

    ghost writes = { λ x m. WritesFamily m x.family x.resources.now };

    fn encoded_len(&self, mode: Mode) -> Result<usize, EncodeError> {
        family_len(self.family, self.resources, mode)
    }

    fn write_encoded<W: Write>(&self, mode: Mode, target: &mut W) -> Result<(), EncodeError> {
        write_family(self.family, self.resources, mode, target)
    }

    ghost spelled = { λ x m. family_spelled m x.family x.resources.now };

    ghost one_text = { λ x m. family_one m x.family x.resources.now };
}

// The encoders of both families, in a SEQUENCE.
type ListEncoder<'a> = Constructed<(FamilyEncoder<'a>, FamilyEncoder<'a>)>;

// The list of the families, IPv4 first (RFC 3779 2.2.3.1, 2.2.3.3).
fn list<'a>(v4: &'a IpResources, v6: &'a IpResources) -> ListEncoder<'a>
    ensures sequence { result.tag ≡ sequence_tag }
    ensures v4 { (result.inner.0.family ≡ Ipv4) × (result.inner.0.resources.now ≡ v4.now) }
    ensures v6 { (result.inner.1.family ≡ Ipv6) × (result.inner.1.resources.now ≡ v6.now) }
{
    let first = FamilyEncoder {
        family: AddressFamily::Ipv4,
        resources: v4,
    };
    let second = FamilyEncoder {
        family: AddressFamily::Ipv6,
        resources: v6,
    };
    Constructed {
        tag: Tag::SEQUENCE,
        inner: (first, second),
    }
}

// How many octets both families have when they are written.
fn families_len(v4: &IpResources, v6: &IpResources, mode: Mode) -> Result<usize, EncodeError>
    ensures len { IfOk result (HasLength (WritesFamilies mode (both v4.now v6.now))) }
    ensures refused { IfErr result
        (CannotWrite (FamiliesTrees mode (both v4.now v6.now))
        (WritesFamilies mode (both v4.now v6.now))) }
{
    if is_any_said(v4, v6) {
        let value = list(v4, v6);
        return value.encoded_len(mode);
    }
    Ok(0)
}

// Writes both families.
fn write_families<W: Write>(
    v4: &IpResources,
    v6: &IpResources,
    mode: Mode,
    target: &mut W,
) -> Result<(), EncodeError>
    ensures written { OnOk result
        (Wrote (WritesFamilies mode (both v4.now v6.now)) (W.contents target.old)
        (W.contents target.new)) }
    ensures refused { IfErr result
        (WriteRefused (FamiliesTrees mode (both v4.now v6.now))
        (WritesFamilies mode (both v4.now v6.now)) (target.new ≡ target.old) (W.contents target.old)
        (W.contents target.new)) }
{
    if is_any_said(v4, v6) {
        let value = list(v4, v6);
        return value.write_encoded(mode, target);
    }
    Ok(())
}

/// IP resources of both families, which are lent, as one value that can be written: the value of a certificate's
/// extension (RFC 3779 2.2.3.1; RFC 6487 4.8.10).
#[derive(Clone, Copy, Debug)]
pub struct IpFamiliesEncoder<'a> {
    /// Of IPv4 addresses.
    pub v4: &'a IpResources,
    /// Of IPv6 addresses.
    pub v6: &'a IpResources,
}

/// A SEQUENCE of the families that aren't missing, IPv4 first, each a SEQUENCE of its number and of what is said of it.
/// Nothing where both are missing: a list of no family is refused by readers, so such an extension has to be left out.
///
/// `TooLong` where a content has more than 2^32 - 1 octets.
impl Values for IpFamiliesEncoder<'_> {
    ghost trees = { λ x m. FamiliesTrees m (both x.v4.now x.v6.now) };

    ghost writes = { λ x m. WritesFamilies m (both x.v4.now x.v6.now) };

    fn encoded_len(&self, mode: Mode) -> Result<usize, EncodeError> {
        families_len(self.v4, self.v6, mode)
    }

    fn write_encoded<W: Write>(&self, mode: Mode, target: &mut W) -> Result<(), EncodeError> {
        write_families(self.v4, self.v6, mode, target)
    }

    ghost spelled = { λ x m. families_spelled m (both x.v4.now x.v6.now) };

    ghost one_text = { λ x m. families_one m (both x.v4.now x.v6.now) };
}

/// As by `IpResources::encode_families`.
impl Values for IpFamilies {
    ghost trees = { λ x m. FamiliesTrees m (family_choices x) };

    ghost writes = { λ x m. WritesFamilies m (family_choices x) };

    fn encoded_len(&self, mode: Mode) -> Result<usize, EncodeError> {
        families_len(&self.v4, &self.v6, mode)
    }

    fn write_encoded<W: Write>(&self, mode: Mode, target: &mut W) -> Result<(), EncodeError> {
        write_families(&self.v4, &self.v6, mode, target)
    }

    ghost spelled = { λ x m. families_spelled m (family_choices x) };

    ghost one_text = { λ x m. families_one m (family_choices x) };
}

impl IpResources {
    /// The resources of both families as one value that can be written, as `take_families_from` reads it.
    pub fn encode_families<'a>(v4: &'a IpResources, v6: &'a IpResources) -> IpFamiliesEncoder<'a>
        ensures v4 { result.v4.now ≡ v4.now }
        ensures v6 { result.v6.now ≡ v6.now }
    {
        IpFamiliesEncoder { v4, v6 }
    }
}
