//! Providers that are given one by one, in their order.

ghost use Rattle.std.specs.Prelude.{◌≡◌, ◌+◌, ◌↔◌, IsTrue, IfNone, IfSome, None, Some};
ghost use Rattle.objects_payload.specs.Orders.{Admits, MayFollow};

use resources_asn::Asn;

// At most so many providers are attested.
const MAX_PROVIDERS: usize = 10_000;

/// Providers that were given: how many, and the last of them.
#[derive(Clone, Copy)]
pub(crate) struct Run {
    /// How many.
    pub(crate) count: usize,
    /// The last AS number.
    pub(crate) last: Option<u32>,
}

// Whether the AS number may stand after that one: it is greater, and none stands after AS 0.
fn may_follow(last: Option<u32>, number: u32) -> bool
    ensures { IsTrue result ↔ MayFollow last number }
{
    match last {
        None => true,
        Some(last) => last != 0 && last < number,
    }
}

impl Run {
    /// No provider.
    pub(crate) fn new() -> Run
        ensures count { result.count ≡ 0 }
        ensures last { result.last ≡ None }
    {
        Run {
            count: 0,
            last: None,
        }
    }

    /// With one provider more, where it may stand after them.
    pub(crate) fn and(self, customer: Asn, provider: Asn) -> Option<Run>
        ensures none { IfNone result (¬ (Admits customer.value self provider.value)) }
        ensures admits { IfSome result (λ r. Admits customer.value self provider.value) }
        ensures count { IfSome result (λ r. r.count ≡ self.count + 1) }
        ensures last { IfSome result (λ r. r.last ≡ Some provider.value) }
    {
        let number = provider.into_u32();
        if self.count < MAX_PROVIDERS
            && number != customer.into_u32()
            && may_follow(self.last, number)
        {
            return Some(Run {
                count: self.count + 1,
                last: Some(number),
            });
        }
        None
    }
}
