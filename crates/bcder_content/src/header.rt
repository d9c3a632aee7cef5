//! Where values begin and end (X.690 8.1.1 to 8.1.5): what skipping and taking stand on.
ghost use Rattle.std.specs.Prelude.{◌≡◌, ◌≤◌, ◌+◌, ℕ, Option, IfOk, IfSome, IfNone, OnErr, IsTrue, IsFalse, ◌↔◌, true, false};
ghost use Rattle.bcder_source.specs.Limits.{view, at_hand};
ghost use Rattle.bcder_content.specs.bcder_tree.Tags.{TagValue};
ghost use Rattle.bcder_content.specs.bcder_tree.Tree.{HasDefinite, HasIndefinite};
ghost use Rattle.bcder_source.specs.Views.{View, left, more_limit};
ghost use Rattle.bcder_content.specs.Openings.{Opens, Closes, NoValue, Heads, NoHead, OfTag, NoTag, Starts};

use crate::ending::Span;
use bcder_source::{Length, LimitedSource, Mode, Source, Tag};

/// How a value begins: its tag, its form, and how it ends.
#[derive(Clone, Copy, Debug, PartialEq, Eq)]
pub struct Start {
    /// The tag.
    pub tag: Tag,
    /// Whether the value is constructed.
    pub constructed: bool,
    /// How the value ends.
    pub span: Span,
}

// A header in front: tag, form, length, and how many octets it has.
#[derive(Clone, Copy, Debug, PartialEq, Eq)]
struct Header {
    tag: Tag,
    constructed: bool,
    length: Length,
    count: usize,
}

// The header in front of octets.
#[inline(always)]
fn read_header(mode: Mode, octets: &[u8]) -> Option<Header>
    ensures found { IfSome result
        (λ h. Heads mode h.constructed h.tag h.length h.count octets.now) }
    ensures none { IfNone result (NoHead mode octets.now) }
{
    let Some((tag, constructed, before)) = Tag::read(octets) else {
        return None;
    };
    let Some((length, size)) = Length::read(mode, &octets[before..]) else {
        return None;
    };
    Some(Header {
        tag,
        constructed,
        length,
        count: before + size,
    })
}

// The header in front, left unread.
#[inline(always)]
fn peek<S: Source>(mode: Mode, source: &mut LimitedSource<S>) -> Result<Option<Header>, S::Error>
    ensures same { view S.rest source.new ≡ view S.rest source.old }
    ensures found { IfOk result (λ r. IfSome r
        (λ h. Heads mode h.constructed h.tag h.length h.count (left (view S.rest source.old)))) }
    ensures there { IfOk result
        (λ r. IfSome r (λ h. h.count ≤ at_hand source.new.limit (S.available source.new.source))) }
    ensures none { IfOk result (λ r. IfNone r (NoHead mode (left (view S.rest source.old)))) }
{
    source.request(9)?;
    Ok(read_header(mode, (*source).slice()))
}

// Whether constructed values may have a definite length.
fn has_definite(mode: Mode) -> bool
    ensures { IsTrue result ↔ HasDefinite mode }
{
    match mode {
        Mode::Ber | Mode::Der => true,
        Mode::Cer => false,
    }
}

// Whether constructed values may have an indefinite length.
fn has_indefinite(mode: Mode) -> bool
    ensures { IsTrue result ↔ HasIndefinite mode }
{
    match mode {
        Mode::Ber | Mode::Cer => true,
        Mode::Der => false,
    }
}

// The limit after a header and a content of those lengths, if there is room for them.
#[inline(always)]
fn limit_behind(limit: Option<usize>, count: usize, length: usize) -> Option<Option<usize>>
    ensures found { IfSome result (λ outer. limit ≡ more_limit (count + length) outer) }
    ensures none { IfNone result
        ((outer : Option ℕ) → limit ≡ more_limit (count + length) outer → ⊥) }
{
    let Some(limit) = limit else {
        return Some(None);
    };
    let Some(left) = limit.checked_sub(count) else {
        return None;
    };
    match left.checked_sub(length) {
        Some(outer) => Some(Some(outer)),
        None => None,
    }
}

// How a value with such a header ends, if that mode has such values and there is room for it.
#[inline(always)]
fn span_of(
    mode: Mode,
    limit: Option<usize>,
    constructed: bool,
    length: Length,
    count: usize,
) -> Option<Span>
    ensures found { IfSome result (λ span. Starts mode limit constructed length count span) }
    ensures none { IfNone result
        ((span : _) → Starts mode limit constructed length count span → ⊥) }
{
    match length {
        Length::Definite(length) => {
            if constructed && !has_definite(mode) {
                return None;
            }
            match limit_behind(limit, count, length) {
                Some(outer) => Some(Span::Until(outer)),
                None => None,
            }
        }
        Length::Indefinite => {
            if constructed && has_indefinite(mode) {
                return Some(Span::ToEnd);
            }
            None
        }
    }
}

// Goes into the value whose header is in front, if that can begin one.
#[inline(always)]
fn enter_at<S: Source>(
    mode: Mode,
    source: &mut LimitedSource<S>,
    constructed: bool,
    length: Length,
    count: usize,
) -> Option<Span>
    requires there { count ≤ at_hand source.old.limit (S.available source.old.source) }
    ensures found { (t : TagValue)
        → Heads mode constructed t length count (left (view S.rest source.old))
        → IfSome result
        (λ span. Opens mode (view S.rest source.old) constructed t span (view S.rest source.new)) }
    ensures none { (t : TagValue)
        → Heads mode constructed t length count (left (view S.rest source.old))
        → IfNone result (NoValue mode (view S.rest source.old)) }
    ensures kept { IfNone result (view S.rest source.new ≡ view S.rest source.old) }
{
    let limit = source.limit;
    let Some(span) = span_of(mode, limit, constructed, length, count) else {
        return None;
    };
    source.advance(count);
    match length {
        Length::Definite(length) => {
            source.set_limit(Some(length));
            Some(span)
        }
        Length::Indefinite => Some(span),
    }
}

/// Goes into the value in front: from then on its content is what may be read. None where no value
/// is in front.
#[inline(always)]
pub fn enter<S: Source>(
    mode: Mode,
    source: &mut LimitedSource<S>,
) -> Result<Option<Start>, S::Error>
    ensures found { IfOk result (λ r. IfSome r
        (λ start. Opens mode (view S.rest source.old) start.constructed start.tag start.span
        (view S.rest source.new))) }
    ensures none { IfOk result (λ r. IfNone r (NoValue mode (view S.rest source.old))) }
    ensures kept { IfOk result (λ r. IfNone r (view S.rest source.new ≡ view S.rest source.old)) }
    ensures failed { OnErr result (view S.rest source.new ≡ view S.rest source.old) }
{
    let Some(header) = peek(mode, source)? else {
        return Ok(None);
    };
    let Header {
        tag,
        constructed,
        length,
        count,
    } = header;
    match enter_at(mode, source, constructed, length, count) {
        Some(span) => Ok(Some(Start {
            tag,
            constructed,
            span,
        })),
        None => Ok(None),
    }
}

/// The tag that the identifier octets in front have (X.690 8.1.2). None where no identifier octets
/// of a value are in front.
#[inline(always)]
pub fn next_tag<S: Source>(source: &mut LimitedSource<S>) -> Result<Option<Tag>, S::Error>
    ensures same { view S.rest source.new ≡ view S.rest source.old }
    ensures found { IfOk result (λ r. IfSome r (λ tag. OfTag tag (left (view S.rest source.old)))) }
    ensures none { IfOk result (λ r. IfNone r (NoTag (left (view S.rest source.old)))) }
{
    source.request(4)?;
    match Tag::read((*source).slice()) {
        Some((tag, _, _)) => Ok(Some(tag)),
        None => Ok(None),
    }
}

/// Goes past the value whose content is read, where that has ended.
#[inline(always)]
pub fn leave<S: Source>(source: &mut LimitedSource<S>, span: Span) -> Result<bool, S::Error>
    ensures yes { IfOk result
        (λ b. IsTrue b → Closes span (view S.rest source.old) (view S.rest source.new)) }
    ensures no { IfOk result
        (λ b. IsFalse b → (w : View) → Closes span (view S.rest source.old) w → ⊥) }
    ensures kept { IfOk result (λ b. IsFalse b → view S.rest source.new ≡ view S.rest source.old) }
    ensures failed { OnErr result (view S.rest source.new ≡ view S.rest source.old) }
{
    match span {
        Span::Until(outer) => {
            if source.limit != Some(0) {
                return Ok(false);
            }
            source.set_limit(outer);
            Ok(true)
        }
        Span::ToEnd => {
            source.request(2)?;
            if !Tag::is_end((*source).slice()) {
                return Ok(false);
            }
            source.advance(2);
            Ok(true)
        }
    }
}
