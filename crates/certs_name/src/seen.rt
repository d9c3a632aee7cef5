//! The attributes that a name of the RPKI may have (RFC 6487 4.4, 4.5).

ghost use Rattle.std.specs.Prelude.{◌≡◌, ◌≤◌, ◌+◌, ◌⊎◌, false, IfNone, IfSome};
ghost use Rattle.certs_name.specs.Inspected.{IsKind, times};

use crate::whole::Told;

/// Which attributes of a name were seen.
#[derive(Clone, Copy)]
pub(crate) struct Seen {
    /// A commonName, 2.5.4.3.
    pub(crate) common_name: bool,
    /// A serialNumber, 2.5.4.5.
    pub(crate) serial_number: bool,
}

// Which attribute the octets of an identifier are.
impl Told for Seen {
    ghost tells = { IsKind };

    fn told(octets: &[u8]) -> Option<Seen> {
        match octets {
            [85, 4, 3] => Some(Seen {
                common_name: true,
                serial_number: false,
            }),
            [85, 4, 5] => Some(Seen {
                common_name: false,
                serial_number: true,
            }),
            _ => None,
        }
    }
}

impl Seen {
    /// No attribute.
    pub(crate) fn none() -> Seen
        ensures { result ≡ record { common_name = false; serial_number = false } }
    {
        Seen {
            common_name: false,
            serial_number: false,
        }
    }

    /// Both, where they have no attribute in common.
    pub(crate) fn and(self, other: Seen) -> Option<Seen>
        ensures some { IfSome result (λ s.
            (times self.common_name + times other.common_name ≡ times s.common_name)
            × (times self.serial_number + times other.serial_number ≡ times s.serial_number)) }
        ensures none { IfNone result (
            (2 ≤ times self.common_name + times other.common_name)
            ⊎ (2 ≤ times self.serial_number + times other.serial_number)) }
    {
        if self.common_name && other.common_name {
            return None;
        }
        if self.serial_number && other.serial_number {
            return None;
        }
        Some(Seen {
            common_name: self.common_name || other.common_name,
            serial_number: self.serial_number || other.serial_number,
        })
    }
}
