//! The verifier that a bundle's table is.

ghost use Rattle.std.specs.Prelude.{◌≡◌, ◌+◌, ◌-◌, ◌^◌, length, min};
ghost use Rattle.rpki_standing.specs.resources_chain.Rows.{ProbesAtMost};
ghost use Rattle.rpki_rules.specs.certs_key.Digesting.{digests_of};
ghost use Rattle.rpki_standing.specs.certs_basics.Keys.{encoded};
ghost use Rattle.rpki_rules.specs.World.{table};

use crate::table::index::Index;
use crate::table::keys::KeyDigests;
use rpki_rules::{Bundle, Digester, PublicKey, RpkiSignatureAlgorithm, Verdict, Verifier};

/// The verifier of a bundle: good are the signatures whose three SHA-256 digests, those of the encoded key, of the message
/// and of the signature's octets, stand in one entry of its table. The algorithm isn't looked at.
#[derive(Drop)]
pub struct TableVerifier<'a, D: Digester> {
    /// The bundle.
    pub index: Index<'a>,
    /// The digests, of which that of one key is kept.
    pub digests: KeyDigests<'a, D>,
    /// How often it was asked, up to the greatest `u64`.
    pub asked: u64,
    /// How many entries were looked at for the last question.
    pub looks: u64,
}

impl<'a, D: Digester> TableVerifier<'a, D> {
    /// The verifier of a bundle. It wasn't asked yet.
    pub fn new(bundle: &'a Bundle, digester: &'a D) -> TableVerifier<'a, D>
        ensures index { result.index ≡ bundle.now }
        ensures digests { result.digests ≡ digester.now }
        ensures asked { result.asked ≡ 0 }
    {
        TableVerifier {
            index: Index::new(bundle),
            digests: KeyDigests::new(digester),
            asked: 0,
            looks: 0,
        }
    }
}

// The digests of what is asked.
fn verdict_of<D: Digester>(
    digests: &mut KeyDigests<'_, D>,
    key: &PublicKey,
    message: &[u8],
    signature: &[u8],
) -> Verdict
    ensures key { result.key ≡ D.sha256_digest digests.old (encoded key.now) }
    ensures message { result.message ≡ D.sha256_digest digests.old message.now }
    ensures signature { result.signature ≡ D.sha256_digest digests.old signature.now }
    ensures same { digests.new ≡ digests.old }
{
    let key = digests.sha256_of(key);
    Verdict {
        key,
        message: digests.sha256(message),
        signature: digests.sha256(signature),
    }
}

impl<'a, D: Digester> Verifier for TableVerifier<'a, D> {
    ghost says = { λ v. table (digests_of D.sha256_digest D.sha1_digest v.digests)
        v.index.verdicts };

    ghost count = { λ v. v.asked };

    /// At most as many entries are looked at as their number has binary digits.
    fn verify(
        &mut self,
        key: &PublicKey,
        _algorithm: RpkiSignatureAlgorithm,
        message: &[u8],
        signature: &[u8],
    ) -> bool
        ensures answer { result
            ≡ table (digests_of D.sha256_digest D.sha1_digest self.old.digests)
            self.old.index.verdicts key.now _algorithm message.now signature.now }
        ensures same { table (digests_of D.sha256_digest D.sha1_digest self.new.digests)
            self.new.index.verdicts
            ≡ table (digests_of D.sha256_digest D.sha1_digest self.old.digests)
            self.old.index.verdicts }
        ensures counted { self.new.asked ≡ min (self.old.asked + 1) (2 ^ 64 - 1) }
        ensures looks { ProbesAtMost (length self.old.index.verdicts) 0 self.new.looks }
    {
        self.asked = self.asked.saturating_add(1);
        self.looks = 0;
        let sought = verdict_of(&mut self.digests, key, message, signature);
        self.index.has_verdict(sought, &mut self.looks)
    }

    fn asked(&self) -> u64 {
        self.asked
    }
}
