//! Laws of trust anchor locators: the contracts of functions that do nothing.

ghost use Rattle.std.specs.Prelude.{◌≡◌, ◌≢◌, List, ℕ};
ghost use Rattle.objects_payload.specs.certs_basics.Keys.{KeyValue};
ghost use Rattle.objects_payload.specs.Locators.{LocatorText, https_first};
ghost use Rattle.objects_payload.specs.declared.locator.error.ReadError.{ReadError};
ghost use Rattle.objects_payload.specs.declared.locator.error.ReadError.TheVariants.{Memory};
ghost use Rattle.objects_payload.specs.Faults.{IsFault};

/// A text is one locator at most.
pub fn one_locator()
    ensures uris { (text : List ℕ) (us vs : List (List ℕ)) (k l : KeyValue)
        → LocatorText text us k → LocatorText text vs l → us ≡ vs }
    ensures key { (text : List ℕ) (us vs : List (List ℕ)) (k l : KeyValue)
        → LocatorText text us k → LocatorText text vs l → k ≡ l }
{}

/// A text with a fault is no locator.
pub fn faults_are_refused()
    ensures { (e : ReadError) (text : List ℕ) (uris : List (List ℕ)) (key : KeyValue)
        → e ≢ Memory → IsFault e text → LocatorText text uris key → ⊥ }
{}

/// A text has one fault at most, lack of memory aside.
pub fn one_fault()
    ensures { (e f : ReadError) (text : List ℕ) → e ≢ Memory → f ≢ Memory
        → IsFault e text → IsFault f text → e ≡ f }
{}

/// Putting https URIs first twice is doing it once.
pub fn https_first_twice()
    ensures { (uris : List (List ℕ)) → https_first (https_first uris) ≡ https_first uris }
{}
