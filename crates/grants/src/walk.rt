// The access query: whether a range of bytes is covered by regions that grant it (H8 to H10).
ghost use Rattle.std.specs.Prelude.{◌-◌, ◌^◌, ◌≤◌, ◌≡◌};
ghost use Rattle.grants.specs.Access.{allowed, allows, granted_all, permits};
ghost use Rattle.grants.specs.Cover.{reach, reached};

use regions::{Region, Regions};

// H9, H10. Addresses are widened, so that there is room for the end of the space. What is asked stays four numbers: the C interface has them
// so, and each step asks for others of them, so that a struct is no plainer.
pub fn allowed(r: &Regions, v: u8, address: u32, length: u32, way: u8) -> bool
    requires { r.now.count ≤ 64 }
    ensures { result ≡ allowed r.now v address length way }
{
    if length == 0 {
        return true;
    }
    let from = u64::from(address);
    let end = from + u64::from(length);
    if 4294967296 < end {
        return false;
    }
    covered(r, v, way, from, end)
}

// From region to region, each as far as it goes.
fn covered(r: &Regions, v: u8, way: u8, from: u64, end: u64) -> bool
    requires { (r.now.count ≤ 64) × (from ≤ end) × (end ≤ 2 ^ 32) }
    ensures { result ≡ granted_all r.now v way from (end - from) }
{
    let mut at = from;
    while at < end {
        match reach(r, v, way, at) {
            Some(next) => at = next,
            None => return false,
        }
    }
    true
}

// One past the last address of a region that grants the byte at `at`.
fn reach(r: &Regions, v: u8, way: u8, at: u64) -> Option<u64>
    requires { r.now.count ≤ 64 }
    ensures { result ≡ reached (reach r.now v way at r.now.count) }
{
    for k in (0..r.count as usize).rev() {
        let region = r.at(k);
        if allows(region, v, way, at) {
            return Some(u64::from(region.last) + 1);
        }
    }
    None
}

// H9, of one region and one byte.
#[tactic(auto, unfolding(crate::specs::Access::allows))]
fn allows(region: Region, v: u8, way: u8, at: u64) -> bool
    ensures { result ≡ allows region.holder region.permission region.start region.last v way at }
{
    let inside = (u64::from(region.start) <= at) & (at <= u64::from(region.last));
    region.holder == v && permits(way, region.permission) & inside
}

// H8.
fn permits(way: u8, permission: u8) -> bool
    ensures { result ≡ permits way permission }
{
    match way {
        Regions::READ => (permission == Regions::READ) | (permission == Regions::WRITE),
        Regions::WRITE => permission == Regions::WRITE,
        Regions::EXECUTE => permission == Regions::EXECUTE,
        _ => false,
    }
}
