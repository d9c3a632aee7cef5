//! Moments that are read (RFC 5280 4.1.2.5).

ghost use Rattle.std.specs.Prelude.{◌≡◌, ◌≢◌, true, IfErr, OnErr};
ghost use Rattle.certs_basics.specs.bcder_tree.Tags.{generalized_time_tag, utc_time_tag};
ghost use Rattle.certs_basics.specs.bcder_source.Errors.{OnlyContent};
ghost use Rattle.certs_basics.specs.bcder_source.declared.error.DecodeError.TheVariants.{Memory};
ghost use Rattle.certs_basics.specs.bcder_primitive.Plain.{plain, ReadsOctetsAs};
ghost use Rattle.certs_basics.specs.bcder_content.Exact.{ReadsAs, ReadsOptAs};
ghost use Rattle.certs_basics.specs.bcder_content.Grammar.{OctetsOf};
ghost use Rattle.certs_basics.specs.bcder_content.Here.{here};
ghost use Rattle.certs_basics.specs.Forms.{IsShortMoment, IsTime, Tells};
ghost use Rattle.certs_basics.specs.Times.{IsMoment};

use crate::time::text::Form;
use crate::time::time::Time;
use bcder::Tag;
use bcder::decode::{Constructed, ContentError, DecodeError, Primitive, Source};

// Marks a content as failed, and refuses it.
fn refuse<S: Source>(prim: &mut Primitive<S>) -> DecodeError<S::Error>
    ensures error { OnlyContent result (Unit {0}) }
    ensures failed { (plain S.rest prim.new).failed ≡ true }
{
    prim.failed = true;
    prim.content_err(ContentError::from_static("invalid time"))
}

// The moment that all octets of a content tell in the form.
#[inline(always)]
fn moment<S: Source>(prim: &mut Primitive<S>, form: Form) -> Result<Time, DecodeError<S::Error>>
    ensures reads { ReadsOctetsAs (λ t. t) (Tells form) (plain S.rest prim.old) result
        (plain S.rest prim.new) }
    ensures failed { OnErr result ((plain S.rest prim.new).failed ≡ true) }
    ensures no_memory { IfErr result (λ e. e ≢ Memory) }
{
    if prim.failed {
        return Err(refuse(prim));
    }
    let _count = match prim.request(form.len()) {
        Ok(count) => count,
        Err(error) => return Err(DecodeError::Source(error)),
    };
    match form.moment((*prim).slice()) {
        Some(moment) => {
            prim.advance(form.len());
            Ok(moment)
        }
        None => Err(refuse(prim)),
    }
}

// The moment of a UTCTime, if one is next.
fn take_opt_utc_time<S: Source>(
    cons: &mut Constructed<S>,
) -> Result<Option<Time>, DecodeError<S::Error>>
    ensures reads { ReadsOptAs (λ t. t) utc_time_tag (OctetsOf utc_time_tag IsShortMoment)
        (here S.rest cons.old) result (here S.rest cons.new) }
    ensures failed { OnErr result ((here S.rest cons.new).failed ≡ true) }
    ensures no_memory { IfErr result (λ e. e ≢ Memory) }
{
    cons.take_opt_primitive_if(Tag::UTC_TIME, |prim| moment(prim, Form::Utc))
}

/// Reading. A time is primitive in every mode.
impl Time {
    /// A UTCTime or a GeneralizedTime (RFC 5280 4.1.2.5).
    pub fn take_from<S: Source>(cons: &mut Constructed<S>) -> Result<Time, DecodeError<S::Error>>
        ensures reads { ReadsAs (λ t. t) IsTime (here S.rest cons.old) result
            (here S.rest cons.new) }
        ensures failed { OnErr result ((here S.rest cons.new).failed ≡ true) }
        ensures no_memory { IfErr result (λ e. e ≢ Memory) }
    {
        let short = take_opt_utc_time(cons)?;
        match short {
            Some(moment) => Ok(moment),
            None => Time::take_generalized_from(cons),
        }
    }

    /// A GeneralizedTime (RFC 5280 4.1.2.5.2).
    pub fn take_generalized_from<S: Source>(
        cons: &mut Constructed<S>,
    ) -> Result<Time, DecodeError<S::Error>>
        ensures reads { ReadsAs (λ t. t) (OctetsOf generalized_time_tag IsMoment)
            (here S.rest cons.old) result (here S.rest cons.new) }
        ensures failed { OnErr result ((here S.rest cons.new).failed ≡ true) }
        ensures no_memory { IfErr result (λ e. e ≢ Memory) }
    {
        cons.take_primitive_if(Tag::GENERALIZED_TIME, |prim| {
            moment(prim, Form::Generalized)
        })
    }
}
