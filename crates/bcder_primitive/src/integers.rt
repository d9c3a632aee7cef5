//! The numbers that the content octets of INTEGERs spell (X.690 8.3).
ghost use Rattle.std.specs.Prelude.{◌≡◌, ◌↔◌, ◌+◌, ◌^◌, ◌<◌, ◌≤◌, ℕ, ℤ, IfSome, IfNone, IsTrue, length};
ghost use Rattle.bcder_primitive.specs.bcder_tree.Integers.{number_of, IsShortest};
ghost use Rattle.bcder_primitive.specs.Values.{IsUnsigned, IsSigned};

/// Whether octets are some, and of several the first nine bits aren't all alike (8.3.1, 8.3.2).
pub fn is_shortest(octets: &[u8]) -> bool
    ensures { IsTrue result ↔ IsShortest octets.now }
{
    match octets {
        [] => false,
        [_] => true,
        [first, second, ..] => {
            if *first == 0 {
                return *second >= 128;
            }
            if *first == 255 {
                return *second < 128;
            }
            true
        }
    }
}

// The number that octets spell.
fn number(octets: &[u8]) -> u128
    requires { length octets.now ≤ 16 }
    ensures { result ≡ number_of octets.now }
{
    let mut number = 0;
    for octet in octets {
        number = number * 256 + u128::from(*octet);
    }
    number
}

// How far the number that octets spell is below the greatest of as many octets.
fn missing(octets: &[u8]) -> u128
    requires { length octets.now ≤ 16 }
    ensures { number_of octets.now + result + 1 ≡ 256 ^ length octets.now }
{
    let mut missing = 0;
    for octet in octets {
        missing = missing * 256 + u128::from(255 - *octet);
    }
    missing
}

// The octets without a zero in front.
fn without_zero(octets: &[u8]) -> &[u8]
    ensures same { number_of result.now ≡ number_of octets.now }
    ensures few { IsShortest octets.now → number_of octets.now < 2 ^ 128 → length result.now ≤ 16 }
{
    let [first, rest @ ..] = octets else {
        return octets;
    };
    if *first == 0 {
        return rest;
    }
    octets
}

/// The number of an INTEGER with these content octets, if it is from 0 to `max`.
pub(crate) fn unsigned(octets: &[u8], max: u128) -> Option<u128>
    ensures found { IfSome result (λ n. IsUnsigned (max + 1) octets.now n) }
    ensures none { IfNone result ((n : ℕ) → IsUnsigned (max + 1) octets.now n → ⊥) }
{
    if !is_shortest(octets) {
        return None;
    }
    let [first, ..] = octets else {
        return None;
    };
    if *first >= 128 {
        return None;
    }
    let digits = without_zero(octets);
    if digits.len() > 16 {
        return None;
    }
    let number = number(digits);
    if number > max {
        return None;
    }
    Some(number)
}

/// The number of an INTEGER with these content octets, if it is from `-1 - max` to `max`.
pub(crate) fn signed(octets: &[u8], max: u128) -> Option<i128>
    requires { max < 2 ^ 127 }
    ensures found { IfSome result (λ n. IsSigned (max + 1) octets.now n) }
    ensures none { IfNone result ((n : ℤ) → IsSigned (max + 1) octets.now n → ⊥) }
{
    if !is_shortest(octets) {
        return None;
    }
    if octets.len() > 16 {
        return None;
    }
    let [first, ..] = octets else {
        return None;
    };
    if *first < 128 {
        let number = number(octets);
        if number > max {
            return None;
        }
        return Some(number as i128);
    }
    let missing = missing(octets);
    if missing > max {
        return None;
    }
    Some(-1 - missing as i128)
}
