//! How many places the paths have.

ghost use Rattle.std.specs.Prelude.{◌≡◌, ◌+◌, ◌<◌, ◌^◌, All, IfOk, MatchOption, length};
ghost use Rattle.objects_rta_valid.specs.Runs.{AreInside, AreMeasured, AreSet, Forks, IsMeasured, is_known};
ghost use Rattle.objects_rta_valid.specs.Following.{IsFollowed};

use crate::paths::table::Found;
use std::alloc::{AllocError, Global};

/// How many places the path from a place has, where it is known; of a place on the path that is being followed, how many of
/// it are before.
#[derive(Clone, Copy, Debug)]
pub(crate) enum Length {
    Unknown,
    Underway(usize),
    Of(usize),
}

impl Length {
    /// Whether something is known of it.
    pub(crate) fn is_known(&self) -> bool
        ensures { result ≡ is_known self.now }
    {
        match self {
            Length::Unknown => false,
            Length::Underway(_) => true,
            Length::Of(_) => true,
        }
    }
}

/// A path: its first place, and how many it has.
#[derive(Clone, Copy, Debug)]
pub(crate) struct Start {
    pub(crate) first: usize,
    pub(crate) count: usize,
}

// Places that are followed for the first time, in their order. The path from the one numbered k, from 0 on, has `behind` places
// and `before - k` more; from `before` on, which is where a circle begins, no more.
#[derive(Drop)]
struct Fresh {
    places: Vec<usize>,
    before: usize,
    behind: usize,
}

// Follows the path from a place as long as its places are new; none where it comes to more than one certificate.
fn follow(
    alloc: Global,
    steps: &[Found],
    lengths: &mut [Length],
    first: usize,
) -> Result<Option<Fresh>, AllocError>
    requires measured { AreMeasured steps.now lengths.old }
    requires inside { AreInside steps.now }
    requires first { first < length steps.now }
    ensures { IfOk result (λ fresh. MatchOption fresh (Forks steps.now first)
        (IsFollowed steps.now lengths.old lengths.new first)) }
{
    let mut places = Vec::new(alloc);
    let mut place = first;
    loop {
        match lengths[place] {
            Length::Unknown => {}
            Length::Underway(before) => {
                let behind = places.len() - before;
                return Ok(Some(Fresh {
                    places,
                    before,
                    behind,
                }));
            }
            Length::Of(behind) => {
                let before = places.len();
                return Ok(Some(Fresh {
                    places,
                    before,
                    behind,
                }));
            }
        }
        lengths[place] = Length::Underway(places.len());
        places.push(place)?;
        match steps[place] {
            Found::Nothing => {
                let before = places.len() - 1;
                return Ok(Some(Fresh {
                    places,
                    before,
                    behind: 1,
                }));
            }
            Found::One(next) => place = next,
            Found::Several => return Ok(None),
        }
    }
}

// The places get their lengths.
fn measure(lengths: &mut [Length], fresh: &Fresh)
    requires inside { All (λ place. place < length lengths.old) fresh.now.places.items }
    requires few { fresh.now.behind + fresh.now.before < 2 ^ 64 }
    ensures { AreSet lengths.old lengths.new
        fresh.now.places.items fresh.now.before fresh.now.behind }
{
    for (k, place) in fresh.places.iter().enumerate() {
        lengths[*place] = Length::Of(fresh.behind + fresh.before.saturating_sub(k));
    }
}

/// How many places the path from that place has, which are all measured then; none where it comes to more than one
/// certificate. Each place is followed once, whichever paths it is on.
pub(crate) fn length_of(
    alloc: Global,
    steps: &[Found],
    lengths: &mut [Length],
    first: usize,
) -> Result<Option<usize>, AllocError>
    requires measured { AreMeasured steps.now lengths.old }
    requires inside { AreInside steps.now }
    requires first { first < length steps.now }
    ensures { IfOk result (λ n. MatchOption n (Forks steps.now first)
        (IsMeasured steps.now lengths.old lengths.new first)) }
{
    let Some(fresh) = follow(alloc, steps, lengths, first)? else {
        return Ok(None);
    };
    measure(lengths, &fresh);
    Ok(Some(fresh.behind + fresh.before))
}
