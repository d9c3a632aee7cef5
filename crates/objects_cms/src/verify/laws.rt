//! Laws of sound objects: the contracts of functions that do nothing.

ghost use Rattle.std.specs.Prelude.{◌≡◌, ◌≢◌, ℕ, List};
ghost use Rattle.objects_cms.specs.certs_x509.declared.errors.verification.VerificationError.{VerificationError as Error};
ghost use Rattle.objects_cms.specs.certs_x509.declared.errors.verification.VerificationError.TheVariants.{Memory};
ghost use Rattle.objects_cms.specs.certs_basics.HandedIn.{Digests};
ghost use Rattle.objects_cms.specs.certs_basics.Verdicts.{Verdicts};
ghost use Rattle.objects_cms.specs.objects_payload.ObjectText.{IsSignedMessage, Object, Signer as SignerValue, Sound};
ghost use Rattle.objects_cms.specs.Content.{FailsContent};

/// An object of which a test fails isn't sound: only lack of memory says nothing of it.
pub fn what_fails_is_not_sound()
    ensures { (d : Digests) (v : Verdicts) (o : Object) (e : Error)
        → FailsContent d v o e → e ≢ Memory → Sound d v o → ⊥ }
{}

/// There is one message at most that a signer signed.
pub fn one_message_is_signed()
    ensures { (s : SignerValue) (m n : List ℕ)
        → IsSignedMessage s m → IsSignedMessage s n → m ≡ n }
{}
