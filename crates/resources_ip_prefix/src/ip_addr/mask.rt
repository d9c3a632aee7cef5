//! Masks of an address's last bits.

ghost use Rattle.std.specs.Prelude.{◌≡◌, ◌-◌, ◌^◌, ◌≤◌};

/// The number whose last `host` bits are ones.
pub(crate) fn host_mask(host: u8) -> u128
    requires { host ≤ 128 }
    ensures { result ≡ 2 ^ host - 1 }
{
    match host {
        0 => 0,
        _ => u128::MAX >> (128 - u32::from(host)),
    }
}
