//! Texts of lists of blocks, piece by piece.

ghost use Rattle.std.specs.Prelude.{MatchOption};
ghost use Rattle.resources_chain.specs.Lists.{CutsPiece, HasNoComma};

/// The first piece of a list, and what comes after its comma and after a space there; none where there is no comma.
pub fn cut_piece(text: &str) -> Option<(&str, &str)>
    ensures { MatchOption result (HasNoComma text.now)
        (λ parts. CutsPiece text.now parts.0.now parts.1.now) }
{
    let Some((piece, behind)) = text.split_once(',') else {
        return None;
    };
    match behind.strip_prefix(" ") {
        Some(rest) => Some((piece, rest)),
        None => Some((piece, behind)),
    }
}
