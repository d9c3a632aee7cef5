//! What locators name, by lookup keys (RFC 8630 2.2).

ghost use Rattle.std.specs.Prelude.{◌≡◌, IfOk, map};
ghost use Rattle.rpki_standing.specs.objects_payload.Uris.{text_of};
ghost use Rattle.rpki_standing.specs.certs_basics.Uris.{lookup_key as key_of};
ghost use Rattle.rpki_walk.specs.Naming.{AreLocatorKeys};

use bytes::Bytes;
use rpki_standing::anchors::{TalUri, read_locator_text};
use rpki_standing::points::key_at;
use rpki_standing::table::Locator;
use std::alloc::{AllocError, Global};

// The lookup keys of URIs.
fn keys_of(alloc: Global, uris: &[TalUri]) -> Result<Vec<Bytes>, AllocError>
    ensures { IfOk result (λ keys. keys.items ≡ map key_of (map text_of uris.now)) }
{
    let mut keys = Vec::new(alloc);
    for uri in uris {
        let key = key_at(alloc, uri.as_str().as_bytes())?;
        keys.push(key)?;
    }
    Ok(keys)
}

/// The lookup keys of the URIs that the locator names, in its order; nothing where its text is no locator's (RFC 8630 2.2).
pub fn locator_keys(alloc: Global, locator: &Locator) -> Result<Option<Vec<Bytes>>, AllocError>
    ensures { IfOk result (AreLocatorKeys locator.now) }
{
    let Ok(tal) = read_locator_text(alloc, locator)? else {
        return Ok(None);
    };
    let keys = keys_of(alloc, tal.uris());
    drop(tal);
    Ok(Some(keys?))
}
