//! What a program's arguments ask.

ghost use Rattle.std.specs.Prelude.{◌∷◌, ◌++◌, ◌≡◌, ℕ, List, false, IfSome, IfNone, codes, map, string_bytes};
ghost use Rattle.rpki_questions.specs.Requests.{AreWords, Asked, Cost, IsAskedBy, IsLimitText, IsOf, Judge, Reach, Refusals, Requests, Why, asked_of, flag_of};

/// The most chains that are counted where no limit is given.
const LIMIT: u64 = 1_000_000;

/// A question about a bundle. URIs are taken by their lookup keys.
#[derive(Clone, Copy, Debug)]
pub enum Question<'a> {
    /// `judge LOCATOR OBJECT CHAIN..`: whether the object is good by the locator of that name and the chain of certificates
    /// at these URIs, the trust anchor's first.
    Judge {
        /// The locator's name.
        locator: &'a str,
        /// The object's URI.
        object: &'a str,
        /// The URI of the trust anchor's certificate.
        anchor: &'a str,
        /// The URIs of the certificates below it.
        below: &'a [String],
    },
    /// `reach URI..`: what whoever may change the objects at these URIs can reach.
    Reach {
        /// The URIs.
        uris: &'a [String],
    },
    /// `why URI`: each refusal of that URI or locator's name, on each chain with its reason, each good object that has the URI or has it on its chain, and
    /// each accepted chain that names the URI: as its manifest's, or in the manifest that stands there.
    Why {
        /// The URI, or the name.
        uri: &'a str,
    },
    /// `refusals`: all that is refused, on each chain with its reason.
    Refusals,
    /// `cost [LIMIT]`: how many accepted chains go on below each authority.
    Cost {
        /// The most chains that are counted.
        limit: u64,
    },
}

/// What the arguments ask, and whether the answer is wanted as JSON.
#[derive(Clone, Copy, Debug)]
pub struct Request<'a> {
    /// Whether the answer is one JSON object.
    pub json: bool,
    /// What is asked.
    pub question: Question<'a>,
}

/// What is said of arguments that ask nothing.
pub const USAGE: &str = "usage: rpki_ask [--json] judge LOCATOR OBJECT CHAIN.. | \
rpki_ask [--json] reach URI.. | rpki_ask [--json] why URI | \
rpki_ask [--json] refusals | rpki_ask [--json] cost [LIMIT]\n";

// The question behind `judge`: a locator's name, an object's URI, and the URIs of one certificate at least.
fn judge_of(words: &[String]) -> Option<Question<'_>>
    ensures found { IfSome result (λ question. IsOf (codes "judge")
        (map string_bytes words.now) (asked_of question)) }
    ensures none { IfNone result ((locator object : List ℕ) (chain : List (List ℕ))
        → AreWords (Judge locator object chain) (map string_bytes words.now) → ⊥) }
{
    let Some((locator, words)) = words.split_first() else {
        return None;
    };
    let Some((object, chain)) = words.split_first() else {
        return None;
    };
    let Some((anchor, below)) = chain.split_first() else {
        return None;
    };
    Some(Question::Judge {
        locator: locator.as_str(),
        object: object.as_str(),
        anchor: anchor.as_str(),
        below,
    })
}

// The question behind `reach`: one URI at least.
fn reach_of(uris: &[String]) -> Option<Question<'_>>
    ensures found { IfSome result (λ question. IsOf (codes "reach")
        (map string_bytes uris.now) (asked_of question)) }
    ensures none { IfNone result ((asked : List (List ℕ))
        → AreWords (Reach asked) (map string_bytes uris.now) → ⊥) }
{
    if uris.is_empty() {
        return None;
    }
    Some(Question::Reach { uris })
}

// The question behind `why`: a URI.
fn why_of(words: &[String]) -> Option<Question<'_>>
    ensures found { IfSome result (λ question. IsOf (codes "why")
        (map string_bytes words.now) (asked_of question)) }
    ensures none { IfNone result ((uri : List ℕ)
        → AreWords (Why uri) (map string_bytes words.now) → ⊥) }
{
    let Some((uri, others)) = words.split_first() else {
        return None;
    };
    if !others.is_empty() {
        return None;
    }
    Some(Question::Why { uri: uri.as_str() })
}

// The question behind `refusals`: nothing.
fn refusals_of(words: &[String]) -> Option<Question<'_>>
    ensures found { IfSome result (λ question. IsOf (codes "refusals")
        (map string_bytes words.now) (asked_of question)) }
    ensures none { IfNone result (AreWords Refusals (map string_bytes words.now) → ⊥) }
{
    if !words.is_empty() {
        return None;
    }
    Some(Question::Refusals)
}

// The number of a limit's text.
fn limit_of(text: &str) -> Option<u64>
    ensures found { IfSome result (λ limit. IsLimitText text.now limit) }
    ensures none { IfNone result ((limit : ℕ) → IsLimitText text.now limit → ⊥) }
{
    match text.parse::<u64>() {
        Ok(limit) => Some(limit),
        Err(_) => None,
    }
}

// The question behind `cost`: a limit, or nothing.
fn cost_of(words: &[String]) -> Option<Question<'_>>
    ensures found { IfSome result (λ question. IsOf (codes "cost")
        (map string_bytes words.now) (asked_of question)) }
    ensures none { IfNone result ((limit : ℕ)
        → AreWords (Cost limit) (map string_bytes words.now) → ⊥) }
{
    let Some((text, others)) = words.split_first() else {
        return Some(Question::Cost { limit: LIMIT });
    };
    if !others.is_empty() {
        return None;
    }
    match limit_of(text.as_str()) {
        Some(limit) => Some(Question::Cost { limit }),
        None => None,
    }
}

// The question that these words ask.
fn question_of(words: &[String]) -> Option<Question<'_>>
    ensures found { IfSome result (λ question. IsAskedBy (map string_bytes words.now)
        (asked_of question)) }
    ensures none { IfNone result
        ((asked : Asked) → IsAskedBy (map string_bytes words.now) asked → ⊥) }
{
    let Some((verb, words)) = words.split_first() else {
        return None;
    };
    match verb.as_str() {
        "judge" => judge_of(words),
        "reach" => reach_of(words),
        "why" => why_of(words),
        "refusals" => refusals_of(words),
        "cost" => cost_of(words),
        _ => None,
    }
}

// Whether JSON is wanted, and the words behind that.
fn without_flag(words: &[String]) -> (bool, &[String])
    ensures words { map string_bytes words.now
        ≡ flag_of result.0 ++ map string_bytes result.1.now }
    ensures none { result.0 ≡ false → (others : List (List ℕ))
        → map string_bytes words.now ≡ codes "--json" ∷ others → ⊥ }
{
    match words.split_first() {
        Some((flag, others)) if flag.as_str() == "--json" => (true, others),
        _ => (false, words),
    }
}

/// What the arguments ask, the first of which is the program's name.
pub fn request_of(arguments: &[String]) -> Option<Request<'_>>
    ensures { Requests (map string_bytes arguments.now) result }
{
    let Some((_, words)) = arguments.split_first() else {
        return None;
    };
    let (json, words) = without_flag(words);
    match question_of(words) {
        Some(question) => Some(Request { json, question }),
        None => None,
    }
}
