//! What is wrong with a line or a ring.

ghost use Rattle.std.specs.Prelude.{◌≡◌, if◌then◌else◌, Some, None};
ghost use Rattle.at_text.specs.Faults.{fault_at};
ghost use Rattle.at_geom.specs.Shapes.{line_fault as line_fault_of, ring_fault as ring_fault_of};

use at_text::{Fault, FaultKind};

/// A fault at the byte `at`, where something is wrong there.
fn fault_where(is_wrong: bool, kind: FaultKind, at: u32) -> Option<Fault>
    ensures { result ≡ (if is_wrong then Some (fault_at kind at) else None) }
{
    if is_wrong {
        Some(Fault { kind, at })
    } else {
        None
    }
}

/// What is wrong with a line of `count` positions that begins at the byte `at`: Short where it has fewer than
/// two positions (RFC 7946 section 3.1.4, OGC 06-103r4 section 6.1.7).
pub fn line_fault(count: u32, at: u32) -> Option<Fault>
    ensures { result ≡ line_fault_of count at }
{
    fault_where(count < 2, FaultKind::Short, at)
}

/// What is wrong with a ring of `count` positions that begins at the byte `at`: Ring where it has fewer than
/// four positions, or its last position isn't its first (RFC 7946 section 3.1.6, OGC 06-103r4 section 6.1.11).
pub fn ring_fault(count: u32, ends_same: bool, at: u32) -> Option<Fault>
    ensures { result ≡ ring_fault_of count ends_same at }
{
    fault_where(count < 4 || !ends_same, FaultKind::Ring, at)
}
