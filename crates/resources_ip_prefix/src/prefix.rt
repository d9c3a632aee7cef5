//! Address prefixes.

ghost use Rattle.std.specs.Prelude.{◌≡◌, ◌≤◌};
ghost use Rattle.resources_ip_prefix.specs.Address.{bits_of};
ghost use Rattle.resources_ip_prefix.specs.Prefixes.{first_of};

use crate::addr::Addr;

/// All addresses that begin with the same bits (RFC 3779 2.1.1, 2.2.3.8). The bits after these are zeros in its
/// own address.
#[derive(Clone, Copy, Debug, PartialEq, Eq, Hash)]
pub struct Prefix {
    start: Addr,
    len: u8,
    ghost short: { len ≤ 128 },
    ghost clear: { first_of len (bits_of start) ≡ bits_of start },
}

impl Prefix {
    ghost use Rattle.resources_ip_prefix.specs.Prefix.{prefix_addr, prefix_len, run_of_prefix};

    /// The prefix of the address's first `len` bits, at most 128.
    pub fn new(addr: Addr, len: u8) -> Self
        requires { len ≤ 128 }
        ensures addr { bits_of (prefix_addr result) ≡ first_of len (bits_of addr) }
        ensures len { prefix_len result ≡ len }
    {
        Prefix {
            start: addr.to_min(len),
            len,
        }
    }

    /// The address: its first bits, then zeros.
    pub fn addr(self) -> Addr
        ensures { result ≡ prefix_addr self }
    {
        self.start
    }

    /// How many bits the addresses share.
    pub fn addr_len(self) -> u8
        ensures value { result ≡ prefix_len self }
        ensures within { result ≤ 128 }
    {
        self.len
    }

    /// The first address.
    pub fn min(self) -> Addr
        ensures { bits_of result ≡ (run_of_prefix self).first }
    {
        self.addr()
    }

    /// The last address.
    pub fn max(self) -> Addr
        ensures { bits_of result ≡ (run_of_prefix self).last }
    {
        self.min().to_max(self.addr_len())
    }
}
