//! Whether a list of keys has one.

ghost use Rattle.std.specs.Prelude.{◌↔◌, IsTrue};
ghost use Rattle.rpki_rules.specs.Words.{Mem};

use bytes::Bytes;

/// Whether the key is one of these.
pub fn is_listed(keys: &[Bytes], key: &[u8]) -> bool
    ensures { IsTrue result ↔ Mem keys.now key.now }
{
    let mut rest = keys;
    while let Some((first, others)) = rest.split_first() {
        if first.as_slice() == key {
            return true;
        }
        rest = others;
    }
    false
}
