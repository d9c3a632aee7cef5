//! The serial numbers of a list, sorted, so that one is found by halving.

ghost use Rattle.std.specs.Prelude.{◌≡◌, ◌<◌, ◌≤◌, ◌↔◌, ℕ, Contains, IfOk, IsTrue, MatchOption, length, slice_index};
ghost use Rattle.certs_x509.specs.resources_chain.Rows.{ProbesAtMost};
ghost use Rattle.certs_x509.specs.Listed.{IsListed};
ghost use Rattle.std.specs.List.Sorted.{IsStrictlyIncreasing};
ghost use Rattle.std.specs.Ordering.{nat_cmp};

use crate::revoked::revoked::RevokedCertificates;
use certs_extension::forms::{Row, halve};
use certs_key::Serial;
use std::alloc::{AllocError, Global};
use std::cmp::Ordering;
use std::marker::Model;

/// The serial numbers of a list, each once, ascending. Contracts see them in their order.
#[derive(Debug, Drop)]
pub struct SerialCache {
    serials: Vec<Serial>,
}

impl Model for SerialCache {
    ghost use Rattle.std.specs.Prelude.{List, ℕ};
    ghost use Rattle.std.specs.List.Sorted.{IsStrictlyIncreasing};

    ghost Value = { List ℕ };

    ghost view = { λ c. c.serials.items };

    ghost invariant = { λ c. IsStrictlyIncreasing c.serials.items };
}

// Serial numbers as they stand to one that is sought.
#[derive(Drop)]
struct Around<'a> {
    serials: &'a [Serial],
    serial: Serial,
    looks: u64,
}

impl<'a> Row for Around<'a> {
    ghost size = { λ row. length row.serials.now };

    ghost stands = { λ row k. nat_cmp (slice_index row.serials.now k) row.serial };

    ghost count = { λ row. row.looks };

    fn len(&self) -> usize {
        self.serials.len()
    }

    fn looks(&self) -> u64 {
        self.looks
    }

    fn look(&mut self, place: usize) -> Ordering {
        self.looks += 1;
        let serial = self.serials[place];
        serial.cmp(&self.serial)
    }
}

impl SerialCache {
    /// The serial numbers of the list.
    pub fn new(alloc: Global, list: &RevokedCertificates) -> Result<SerialCache, AllocError>
        ensures same { IfOk result (λ cache. (n : ℕ) → (Contains cache n ↔ IsListed list.now n)) }
        ensures rises { IfOk result (λ cache. IsStrictlyIncreasing cache) }
    {
        let mut serials = list.serials(alloc)?;
        serials.sort_unstable();
        serials.dedup();
        Ok(SerialCache { serials })
    }

    /// Whether the serial number is among them.
    pub fn contains(&self, serial: Serial) -> bool
        ensures { IsTrue result ↔ Contains self.now serial }
    {
        let mut probes = 0;
        self.position(serial, &mut probes).is_some()
    }

    /// The place of the serial number, where it is among them. The looks at serial numbers that it takes are added to
    /// `probes`: at most as many as their number has binary digits.
    pub fn position(&self, serial: Serial, probes: &mut u64) -> Option<usize>
        requires { probes.old ≤ 18446744073709551551 }
        ensures place { MatchOption result (Contains self.now serial → ⊥)
            (λ k. (k < length self.now) × (slice_index self.now k ≡ serial)) }
        ensures probes { ProbesAtMost (length self.now) probes.old probes.new }
    {
        let mut row = Around {
            serials: self.serials.as_slice(),
            serial,
            looks: *probes,
        };
        let place = halve(&mut row);
        *probes = row.looks();
        place
    }
}

/// A clone has the same serial numbers.
impl Clone for SerialCache {
    ghost is_clone = { λ cache copy. copy ≡ cache };

    fn clone(&self) -> Result<Self, AllocError> {
        Ok(SerialCache {
            serials: self.serials.clone()?,
        })
    }
}
