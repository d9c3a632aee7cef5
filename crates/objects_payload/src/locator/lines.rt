//! Lines of a text, which end with LF or with CR LF (RFC 8630 2.2).

ghost use Rattle.std.specs.Prelude.{◌≡◌, ◌≤◌, ◌==◌, length, MatchOption};
ghost use Rattle.std.specs.List.{position_or_len};
ghost use Rattle.objects_payload.specs.Lines.{Commented, HasComment, HasLine, IsEndedBy, NoComment, NoLine};

// How many octets stand before the first LF, or at all where there is none.
fn line_len(text: &[u8]) -> usize
    ensures bound { result ≤ length text.now }
    ensures place { result ≡ position_or_len (λ c. c == 10) text.now }
{
    text.iter()
        .position(|octet| *octet == b'\n')
        .unwrap_or(text.len())
}

// The line less CR at its end, where it has one there.
fn without_return(line: &[u8]) -> &[u8]
    ensures { IsEndedBy line.now result.now }
{
    match line.strip_suffix(b"\r") {
        Some(front) => front,
        None => line,
    }
}

/// The line in front of the text, less its end, and what stands after it; none where no line ends.
pub(crate) fn split_line(text: &[u8]) -> Option<(&[u8], &[u8])>
    ensures { MatchOption result (NoLine text.now)
        (λ x. HasLine x.0.now x.1.now text.now) }
{
    let len = line_len(text);
    if len < text.len() {
        Some((without_return(&text[..len]), &text[len + 1..]))
    } else {
        None
    }
}

// What stands after the comment in front of the text; none where no comment is there.
fn split_comment(text: &[u8]) -> Option<&[u8]>
    ensures { MatchOption result (NoComment text.now) (λ rest. HasComment rest.now text.now) }
{
    let (line, rest) = split_line(text)?;
    if line.starts_with(b"#") {
        Some(rest)
    } else {
        None
    }
}

/// What stands after the comments in front of the text.
pub(crate) fn skip_comments(text: &[u8]) -> &[u8]
    ensures { Commented result.now text.now }
{
    let mut rest = text;
    while let Some(behind) = split_comment(rest) {
        rest = behind;
    }
    rest
}
