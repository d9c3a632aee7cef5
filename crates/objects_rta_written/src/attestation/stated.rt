//! What is written of the resources that an attestation states.

ghost use Rattle.std.specs.Prelude.{◌≡◌, IfErr, IfOk};
ghost use Rattle.resources_ip.specs.WrittenFamilies.{both, is_said as is_said_of, says_any};
ghost use Rattle.objects_rta_written.specs.Contents.{NumbersRefused, families, listed, numbers, stated};

use crate::tags::Context1;
use certs::written::{Context0, EncodeError, Mode, Sequence, Values};
use resources_as::{AsBlocks, AsResources, InheritedAsResources};
use resources_ip::IpResources;
use std::io::Write;
use std::marker::Model;

// The set of AS numbers that is stated, if one is: `asID [0] EXPLICIT OPTIONAL`.
#[derive(Drop)]
pub(crate) struct NumbersValue<'a>(&'a Option<AsBlocks>);

impl Values for NumbersValue<'_> {
    ghost trees = { λ x. (numbers x.0.now).trees };

    ghost writes = { λ x. (numbers x.0.now).writes };

    fn encoded_len(&self, mode: Mode) -> Result<usize, EncodeError> {
        match self.0 {
            Some(blocks) => {
                let value = Context0(Sequence(blocks));
                value.encoded_len(mode)
            }
            None => Ok(0),
        }
    }

    fn write_encoded<W: Write>(&self, mode: Mode, target: &mut W) -> Result<(), EncodeError> {
        match self.0 {
            Some(blocks) => {
                let value = Context0(Sequence(blocks));
                value.write_encoded(mode, target)
            }
            None => Ok(()),
        }
    }

    ghost spelled = { λ x. (numbers x.0.now).spelled };

    ghost one_text = { λ x. (numbers x.0.now).one_text };
}

// What is said of both families: `ipAddrBlocks [1] EXPLICIT OPTIONAL`. Contracts see both.
#[derive(Drop)]
pub(crate) struct FamiliesValue<'a> {
    v4: &'a IpResources,
    v6: &'a IpResources,
}

impl<'a> Model for FamiliesValue<'a> {
    ghost use Rattle.resources_ip.specs.Encodings.{FamilyChoices};
    ghost use Rattle.resources_ip.specs.WrittenFamilies.{both};

    ghost Value = { FamilyChoices };

    ghost view = { λ v. both v.v4.now v.v6.now };
}

// Whether anything is said of a family.
fn is_said(resources: &IpResources) -> bool
    ensures { result ≡ is_said_of resources.now }
{
    resources.is_present()
}

// The values of both families, with the tag [1].
type FamiliesEncoder<'a> = Context1<resources_ip::IpFamiliesEncoder<'a>>;

impl<'a> FamiliesValue<'a> {
    // Whether anything is said of one family at least.
    fn says_any(&self) -> bool
        ensures { result ≡ says_any self.now }
    {
        is_said(self.v4) || is_said(self.v6)
    }

    // The values, where something is said.
    fn tagged(&self) -> FamiliesEncoder<'a>
        ensures { both result.0.v4.now result.0.v6.now ≡ self.now }
    {
        Context1(IpResources::encode_families(self.v4, self.v6))
    }
}

impl Values for FamiliesValue<'_> {
    ghost trees = { λ x. (families x).trees };

    ghost writes = { λ x. (families x).writes };

    fn encoded_len(&self, mode: Mode) -> Result<usize, EncodeError> {
        if self.says_any() {
            let value = self.tagged();
            return value.encoded_len(mode);
        }
        Ok(0)
    }

    fn write_encoded<W: Write>(&self, mode: Mode, target: &mut W) -> Result<(), EncodeError> {
        if self.says_any() {
            let value = self.tagged();
            return value.write_encoded(mode, target);
        }
        Ok(())
    }

    ghost spelled = { λ x. (families x).spelled };

    ghost one_text = { λ x. (families x).one_text };
}

// The resources that are stated, in a SEQUENCE. Contracts see the set of AS numbers, and what is said of both families.
#[derive(Drop)]
pub(crate) struct StatedValue<'a> {
    asn: &'a Option<AsBlocks>,
    v4: &'a IpResources,
    v6: &'a IpResources,
}

impl<'a> Model for StatedValue<'a> {
    ghost use Rattle.resources_ip.specs.WrittenFamilies.{both};
    ghost use Rattle.objects_rta_written.specs.Contents.{StatedParts};

    ghost Value = { StatedParts };

    ghost view = { λ s. record { asn = s.asn.now; addresses = both s.v4.now s.v6.now } };
}

impl<'a> StatedValue<'a> {
    // The set of AS numbers, if one is stated, and what is said of both families.
    pub(crate) fn new(
        asn: &'a Option<AsBlocks>,
        v4: &'a IpResources,
        v6: &'a IpResources,
    ) -> StatedValue<'a>
        ensures { result ≡ record { asn = asn.now; addresses = both v4.now v6.now } }
    {
        StatedValue { asn, v4, v6 }
    }

    // The encoders of the parts, in a SEQUENCE.
    fn fields(&self) -> Sequence<(NumbersValue<'a>, FamiliesValue<'a>)>
        ensures { record { asn = result.0.0.0.now; addresses = result.0.1 } ≡ self.now }
    {
        let addresses = FamiliesValue {
            v4: self.v4,
            v6: self.v6,
        };
        Sequence((NumbersValue(self.asn), addresses))
    }
}

impl Values for StatedValue<'_> {
    ghost trees = { λ s. (stated s).trees };

    ghost writes = { λ s. (stated s).writes };

    fn encoded_len(&self, mode: Mode) -> Result<usize, EncodeError> {
        let value = self.fields();
        value.encoded_len(mode)
    }

    fn write_encoded<W: Write>(&self, mode: Mode, target: &mut W) -> Result<(), EncodeError> {
        let value = self.fields();
        value.write_encoded(mode, target)
    }

    ghost spelled = { λ s. (stated s).spelled };

    ghost one_text = { λ s. (stated s).one_text };
}

/// The set of AS numbers that is listed, if one is; it is shared.
///
/// `CerUnsupported` where they are those of an issuer; a lack of memory comes of the count of the set's owners.
pub(crate) fn numbers_of(resources: &AsResources) -> Result<Option<AsBlocks>, EncodeError>
    ensures listed { IfOk result (λ o. o ≡ listed resources.now) }
    ensures refused { IfErr result (NumbersRefused resources.now) }
{
    if resources.is_missing() {
        return Ok(None);
    }
    resources.runs_are_maximal();
    match resources.to_blocks() {
        Ok(blocks) => Ok(Some(blocks)),
        Err(InheritedAsResources::Inherited) => Err(EncodeError::CerUnsupported),
        Err(InheritedAsResources::Memory) => Err(EncodeError::Memory),
    }
}
