// The extents of a Copy, checked one after the other (D34).
ghost use Rattle.std.specs.Prelude.{◌≤◌, take, ◌≡◌};
ghost use Rattle.basis.specs.Choice.{both};
ghost use Rattle.copies.specs.Failing.{extent_failure, failing, first_failure, may};
ghost use Rattle.window.specs.Pieces.{inside};

use crate::Failure;
use regions::Regions;
use window::{Extent, Window};

// The first failure of the first n extents.
pub fn first_failure(
    regions: &Regions,
    v: u8,
    w: Window,
    extents: &[Extent; 8],
    n: usize,
) -> Option<Failure>
    requires { n ≤ 8 }
    ensures { result ≡ failing (first_failure (extent_failure (may regions.now v) w) (take n extents.now)) }
{
    for k in 0..n {
        let failure = extent_failure(regions, v, w, extents[k]);
        if failure.is_some() {
            return failure;
        }
    }
    None
}

// What fails in one extent: its length, then its source, then its destination.
fn extent_failure(regions: &Regions, v: u8, w: Window, x: Extent) -> Option<Failure>
    ensures { result ≡ failing (extent_failure (may regions.now v) w x) }
{
    if x.length == 0 {
        return None;
    }
    if Extent::LONGEST < x.length {
        return Some(Failure {
            code: Failure::TOO_LONG,
            detail: x.length,
        });
    }
    if !reaches(regions, v, w, x.source, x.length, Regions::READ) {
        return Some(Failure {
            code: Failure::DENIED,
            detail: x.source,
        });
    }
    if !reaches(regions, v, w, x.destination, x.length, Regions::WRITE) {
        return Some(Failure {
            code: Failure::DENIED,
            detail: x.destination,
        });
    }
    None
}

// Whether the VM may use the bytes in that way, and they lie in the window.
fn reaches(regions: &Regions, v: u8, w: Window, address: u32, n: u32, way: u8) -> bool
    ensures { result ≡ both (may regions.now v address n way) (inside w address n) }
{
    grants::allows(regions, v, address, n, way) && w.inside(address, n)
}
