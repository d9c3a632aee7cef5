//! Identifier octets in front of octets (X.690 8.1.2).
ghost use Rattle.std.specs.Prelude.{◌≡◌, ◌+◌, ◌*◌, ◌<◌, ◌≤◌, ℕ, Bool, IfSome, IfNone, IsTrue, IsFalse};
ghost use Rattle.bcder_tree.specs.Octets.{form_bit, IsHigh};
ghost use Rattle.bcder_tree.specs.Tags.{TagValue};
ghost use Rattle.bcder_tree.specs.Reads.{Begins, Lacks, Identifies, IsEnd};

use crate::Tag;

// Class, form and low five bits of a first octet.
fn split_first(octet: u8) -> (u8, bool, u8)
    ensures whole { octet ≡ result.0 * 64 + form_bit result.1 + result.2 }
    ensures class { result.0 < 4 }
    ensures low { result.2 < 32 }
{
    (octet / 64, octet % 64 >= 32, octet % 32)
}

// A number from 31 up, in the octets after the first, and how many octets it takes.
fn high_number(octets: &[u8]) -> Option<(u32, usize)>
    ensures found { IfSome result (λ r. Begins (λ text. IsHigh text r.0) octets.now r.1) }
    ensures bound { IfSome result (λ r. r.0 ≤ 2097151) }
    ensures none { IfNone result ((n : ℕ) → Lacks (λ text. IsHigh text n) octets.now) }
{
    match octets {
        [a, ..] if *a >= 31 && *a < 128 => Some((*a as u32, 1)),
        [a, b, ..] if *a > 128 && *b < 128 => Some(((*a as u32 - 128) * 128 + *b as u32, 2)),
        [a, b, c, ..] if *a > 128 && *b >= 128 && *c < 128 => Some((
            (*a as u32 - 128) * 16384 + (*b as u32 - 128) * 128 + *c as u32,
            3,
        )),
        _ => None,
    }
}

impl Tag {
    /// The identifier octets in front (X.690 8.1.2): the tag, whether the value is constructed, and
    /// how many octets they are.
    ///
    /// None where no front of the octets is an identifier: where the octets end within it, where a
    /// number to 30 stands in the long form or a long form begins with `80`, where the number is over
    /// 2,097,151, and where the tag is universal 0, which no value has.
    #[inline(always)]
    pub fn read(octets: &[u8]) -> Option<(Tag, bool, usize)>
        ensures found { IfSome result (λ r. Begins (Identifies r.1 r.0) octets.now r.2) }
        ensures none { IfNone result
            ((constructed : Bool) (t : TagValue) → Lacks (Identifies constructed t) octets.now) }
    {
        let [first, rest @ ..] = octets else {
            return None;
        };
        let (class, constructed, low) = split_first(*first);
        if low < 31 {
            if low == 0 && class == 0 {
                return None;
            }
            return Some((Tag::new(class, low as u32), constructed, 1));
        }
        match high_number(rest) {
            Some((number, count)) => Some((Tag::new(class, number), constructed, count + 1)),
            None => None,
        }
    }

    /// Whether end-of-contents, `00 00`, is in front (X.690 8.1.5).
    pub fn is_end(octets: &[u8]) -> bool
        ensures yes { IsTrue result → Begins IsEnd octets.now 2 }
        ensures no { IsFalse result → Lacks IsEnd octets.now }
    {
        match octets {
            [0, 0, ..] => true,
            _ => false,
        }
    }
}
