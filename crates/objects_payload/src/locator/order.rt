//! The order in which URIs are tried.

ghost use Rattle.std.specs.Prelude.{◌≡◌, ◌≤◌, ◌++◌, filter, length, map, not};
ghost use Rattle.objects_payload.specs.Locators.{https_first, is_https as has_https};
ghost use Rattle.objects_payload.specs.Uris.{text_of};

use crate::locator::uri::TalUri;

// How many of the URIs, one at most, are https URIs.
fn count_one(uris: &[TalUri]) -> usize
    requires { length uris.now ≤ 1 }
    ensures { result ≡ length (filter (λ uri. has_https (text_of uri)) uris.now) }
{
    if !uris.is_empty() && uris[0].is_https() {
        1
    } else {
        0
    }
}

// Moves https URIs before the others, keeps the order otherwise, and answers how many https URIs there are. Each half is
// put in order, and then the others of the first half change places with the https URIs of the second.
fn part(uris: &mut [TalUri]) -> usize
    ensures order { uris.new ≡ filter (λ uri. has_https (text_of uri)) uris.old
        ++ filter (λ uri. not (has_https (text_of uri))) uris.old }
    ensures count { result ≡ length (filter (λ uri. has_https (text_of uri)) uris.old) }
{
    let half = uris.len() / 2;
    if half == 0 {
        return count_one(uris);
    }
    let (front, back) = uris.split_at_mut(half);
    let here = part(front);
    let there = part(back);
    uris[here..half + there].rotate_left(half - here);
    here + there
}

/// Moves https URIs before the others, and keeps the order otherwise. Of n URIs each is moved at most log2(n) times, and no
/// memory is taken.
pub(crate) fn https_to_front(uris: &mut [TalUri])
    ensures { map text_of uris.new ≡ https_first (map text_of uris.old) }
{
    let _count = part(uris);
}
