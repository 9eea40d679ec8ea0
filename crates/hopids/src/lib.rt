// The least HopID of a kind of adapter, and the path registers that are looked at from it on (module 5).
#![tactic(auto)]

ghost use Rattle.std.specs.Prelude.{◌*◌, ◌%◌, ◌≡◌, ◌&&◌, leb, eqb};
ghost use Rattle.adapter.specs.Adapter.{min_hop};

use usb4::AdapterType;

// The least HopID of an adapter of a kind.
pub fn min_hop(kind: AdapterType) -> Option<u32>
    ensures { result ≡ min_hop kind }
{
    match kind {
        AdapterType::Unknown => None,
        AdapterType::Inactive => None,
        AdapterType::HostInterface => Some(1),
        _ => Some(8),
    }
}

// Whether a path register at an offset is looked at: even offsets from 2 × the least HopID on.
pub fn looked_at(offset: u32, least: u32) -> bool
    ensures { result ≡ leb (2 * least) offset && eqb (offset % 2) 0 }
{
    if (offset as u64) < 2 * (least as u64) {
        return false;
    }
    offset % 2 == 0
}
