//! The lists of a bundle, looked up.

ghost use Rattle.std.specs.Prelude.{◌≡◌, ◌↔◌, ◌≤◌, IsTrue, IfNone, IfSome, None, Some, length, map};
ghost use Rattle.rpki_standing.specs.resources_chain.Rows.{ProbesAtMost};
ghost use Rattle.rpki_rules.specs.certs_basics.Uris.{lookup_key};
ghost use Rattle.rpki_rules.specs.Words.{Mem, NoRepeat};
ghost use Rattle.rpki_rules.specs.World.{find_object, is_strict};

use crate::table::search::{MAX_PROBES, search};
use crate::table::sought::{ByKey, ByUri};
use rpki_rules::{Bundle, Locator, Object, Time, Verdict};
use std::marker::Model;

/// A bundle, whose objects and verdicts are found by halving. Contracts see the bundle.
#[derive(Drop)]
pub struct Index<'a> {
    bundle: &'a Bundle,
}

impl<'a> Model for Index<'a> {
    ghost use Rattle.rpki_standing.specs.rpki_bundle.Bundle.{BundleValue};
    ghost use Rattle.rpki_standing.specs.rpki_bundle.Lawful.{IsLawful};

    ghost Value = { BundleValue };

    ghost view = { λ index. index.bundle.now };

    ghost invariant = { λ index. IsLawful index.bundle.now };
}

/// What the bundle says of the run.
impl<'a> Index<'a> {
    /// The index of a bundle.
    pub fn new(bundle: &'a Bundle) -> Index<'a>
        ensures { result ≡ bundle.now }
    {
        // So its lists ascend.
        bundle.is_spelled();
        Index { bundle }
    }

    /// The moment at which validity is judged.
    pub fn moment(&self) -> Time
        ensures { result ≡ self.now.moment }
    {
        self.bundle.moment()
    }

    /// Whether manifests, ROAs and ASPAs are read in DER alone.
    pub fn strict(&self) -> bool
        ensures { result ≡ is_strict self.now }
    {
        !self.bundle.relaxed()
    }

    /// The greatest number of certificates in a chain, from `MIN_DEPTH` to `MAX_DEPTH` of `rpki_bundle`.
    pub fn depth(&self) -> u8
        ensures depth { result ≡ self.now.depth }
        ensures deep { 1 ≤ self.now.depth }
    {
        self.bundle.depth()
    }

    /// The trust anchor locators, of which no two have one name.
    pub fn locators(&self) -> &'a [Locator]
        ensures locators { result.now ≡ self.now.locators }
        ensures apart { NoRepeat (map (λ l. l.name) self.now.locators) }
    {
        self.bundle.locators()
    }
}

/// What is looked up.
impl<'a> Index<'a> {
    /// Whether the table has the verdict. The looks at verdicts that it takes are added to `probes`: at most as many as
    /// their number has binary digits. `MAX_PROBES` is 64 less than the greatest `u64`.
    pub fn has_verdict(&self, sought: Verdict, probes: &mut u64) -> bool
        requires { probes.old ≤ MAX_PROBES }
        ensures answer { IsTrue result ↔ Mem self.now.verdicts sought }
        ensures probes { ProbesAtMost (length self.now.verdicts) probes.old probes.new }
    {
        search(self.bundle.verdicts(), &sought, probes).is_some()
    }

    /// The object with that lookup key.
    pub fn object(&self, key: &[u8]) -> Option<&'a Object>
        ensures found { IfSome result
            (λ o. find_object self.now.objects key.now ≡ Some o.now.octets) }
        ensures key { IfSome result (λ o. o.now.uri ≡ key.now) }
        ensures none { IfNone result (find_object self.now.objects key.now ≡ None) }
    {
        let objects = self.bundle.objects();
        let mut probes = 0;
        let place = search(objects, &ByKey(key), &mut probes)?;
        Some(&objects[place])
    }

    /// The object at a URI, which is looked up by its lookup key.
    pub fn object_at(&self, uri: &[u8]) -> Option<&'a Object>
        ensures found { IfSome result
            (λ o. find_object self.now.objects (lookup_key uri.now) ≡ Some o.now.octets) }
        ensures key { IfSome result (λ o. o.now.uri ≡ lookup_key uri.now) }
        ensures none { IfNone result
            (find_object self.now.objects (lookup_key uri.now) ≡ None) }
    {
        let objects = self.bundle.objects();
        let mut probes = 0;
        let place = search(objects, &ByUri(uri), &mut probes)?;
        Some(&objects[place])
    }
}
