//! Laws of algorithms: the contracts of functions that do nothing.

ghost use Rattle.std.specs.Prelude.{ℕ, Bool, List, true};
ghost use Rattle.certs_key.specs.bcder_tree.declared.mode.Mode.{Mode as ModeValue};
ghost use Rattle.certs_key.specs.bcder_content.Grammar.{End, One, Then};
ghost use Rattle.certs_key.specs.bcder_values.Returns.{ReadAgain};
ghost use Rattle.certs_key.specs.certs_basics.Basics.{IsAlgorithm};
ghost use Rattle.certs_key.specs.certs_basics.Identifiers.{rsa_encryption};
ghost use Rattle.certs_key.specs.Algorithms.{IsCmsAlgorithm, IsDigestAlgorithm, AreDigestAlgorithms, algorithm_of, digest_algorithm, digest_algorithms, x509_algorithm};

/// A value names one algorithm at most.
pub fn one_meaning()
    ensures x509 { One IsAlgorithm }
    ensures cms { One IsCmsAlgorithm }
    ensures digest { One IsDigestAlgorithm }
    ensures digests { One AreDigestAlgorithms }
{}

/// What is written of an algorithm in a certificate is read again as that algorithm.
pub fn x509_is_read_again()
    ensures { (a : Bool) (m : ModeValue) (text : List ℕ) → x509_algorithm.writes a m text
        → ReadAgain m (λ ts. Then IsAlgorithm End ts (a, tt)) text }
{}

/// What is written of an algorithm in a signed object is read again as the algorithm with NULL.
pub fn cms_is_read_again()
    ensures { (m : ModeValue) (text : List ℕ) → (algorithm_of rsa_encryption).writes true m text
        → ReadAgain m (λ ts. Then IsCmsAlgorithm End ts (true, tt)) text }
{}

/// What is written of the digest algorithm is read again, alone and in a SET.
pub fn digest_is_read_again()
    ensures alone { (m : ModeValue) (text : List ℕ) → digest_algorithm.writes tt m text
        → ReadAgain m (λ ts. Then IsDigestAlgorithm End ts (tt, tt)) text }
    ensures set { (m : ModeValue) (text : List ℕ) → digest_algorithms.writes (tt, tt) m text
        → ReadAgain m (λ ts. Then AreDigestAlgorithms End ts ((tt, tt), tt)) text }
{}
