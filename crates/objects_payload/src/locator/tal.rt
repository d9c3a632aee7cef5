//! `Tal`.

ghost use Rattle.std.specs.Prelude.{◌≡◌, ◌≢◌, IfErr, List, ℕ, map};
ghost use Rattle.objects_payload.specs.certs_basics.Keys.{KeyValue};
ghost use Rattle.objects_payload.specs.Locators.{LocatorText, https_first};
ghost use Rattle.objects_payload.specs.declared.locator.error.ReadError.TheVariants.{Memory};
ghost use Rattle.objects_payload.specs.Tals.{FailsAtIo, ReadsNamed, ReadsTal};
ghost use Rattle.objects_payload.specs.Uris.{text_of};

use crate::counted::Counted;
use crate::locator::error::ReadError;
use crate::locator::key::read_key;
use crate::locator::lines::skip_comments;
use crate::locator::order::https_to_front;
use crate::locator::text::take_text;
use crate::locator::uri::TalUri;
use crate::locator::uris::take_uris;
use certs_basics::tal::TalInfo;
use certs_key::PublicKey;
use std::alloc::Global;
use std::io::Read;
use std::marker::Model;
use std::rc::Rc;

/// A trust anchor locator: the URIs of the anchor's certificate, one or more, its key, and what the locator is called
/// (RFC 8630 2). Contracts see all of them, the URIs by their texts.
#[derive(Debug, Drop)]
pub struct Tal {
    uris: Vec<TalUri>,
    key_info: PublicKey,
    info: Rc<TalInfo>,
}

impl Model for Tal {
    ghost use Rattle.std.specs.Prelude.{map};
    ghost use Rattle.objects_payload.specs.Tals.{TalValue};
    ghost use Rattle.objects_payload.specs.Uris.{text_of};

    ghost Value = { TalValue };

    ghost view = { λ t. record {
      uris = map text_of t.uris.items;
      key = t.key_info;
      info = t.info.value;
    } };
}

impl Tal {
    /// The locator of that name and text: comments, each a line that begins with `#`; URIs, one or more, each on a line;
    /// an empty line; and after it in base 64 octets with a key in front, in DER. Lines end with LF or with CR LF, and
    /// tab, LF, form feed, CR and space are dropped from the base 64.
    pub fn from_text(alloc: Global, name: String, octets: &[u8]) -> Result<Tal, ReadError>
        ensures reads { ReadsTal name octets.now result }
        ensures refused { IfErr result (λ e. e ≢ Memory → (uris : List (List ℕ)) (key : KeyValue)
            → LocatorText octets.now uris key → ⊥) }
    {
        let (uris, text) = take_uris(alloc, skip_comments(octets))?;
        let key_info = read_key(alloc, text)?;
        let info = TalInfo::from_name(name).into_rc(alloc)?;
        Ok(Tal {
            uris,
            key_info,
            info,
        })
    }

    /// The locator of that name that the reader's whole text is. The reader is read until a read gives no octet, and
    /// nothing is retried. `Io` comes where a read fails, which the reader's count of failures tells, or where it gives 2^32
    /// octets; of a text that was read whole all is answered as `from_text` does.
    pub fn read_named<R: Read>(
        alloc: Global,
        name: String,
        reader: &mut Counted<R>,
    ) -> Result<Tal, ReadError>
        ensures reads { ReadsNamed name (R.remaining reader.old.inner)
            (R.remaining reader.new.inner) result }
        ensures failures { FailsAtIo (R.remaining reader.old.inner) (R.remaining reader.new.inner)
            (record { before = reader.old.failures; after = reader.new.failures }) result }
    {
        let text = take_text(alloc, reader)?;
        Tal::from_text(alloc, name, text.as_slice())
    }

    /// Puts https URIs before the others, and keeps the order otherwise. No memory is taken.
    pub fn prefer_https(&mut self)
        ensures { self.new ≡ record self.old { uris = https_first self.old.uris } }
    {
        https_to_front(self.uris.as_mut_slice());
    }

    /// The URIs, in order.
    pub fn uris(&self) -> &[TalUri]
        ensures { map text_of result.now ≡ self.now.uris }
    {
        self.uris.as_slice()
    }

    /// The anchor's key.
    pub fn key_info(&self) -> &PublicKey
        ensures { result.now ≡ self.now.key }
    {
        &self.key_info
    }

    /// What the locator is called, to be shared by all that is validated below it.
    pub fn info(&self) -> &Rc<TalInfo>
        ensures { result.now.value ≡ self.now.info }
    {
        &self.info
    }
}
