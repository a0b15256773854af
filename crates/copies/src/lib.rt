// What fails in a Copy (D33, D34): all of it is checked before a byte moves (D35).
#![tactic(auto)]

mod checking;

ghost use Rattle.std.specs.Prelude.{◌≡◌};
ghost use Rattle.copies.specs.Failing.{copy_failure, failing, may, told};

use regions::Regions;
use window::{Pieces, Window};

// Why a Copy ends its VM (A5): a code with its data, as the C interface has both.
#[derive(Clone, Copy)]
pub struct Failure {
    pub code: u8,
    pub detail: u32,
}

impl Failure {
    // The codes of A5: bytes that the VM may not use, too many extents, too long an extent.
    pub const DENIED: u8 = 3;

    pub const TOO_MANY: u8 = 6;

    pub const TOO_LONG: u8 = 7;

    // What is told of it: zeros where nothing fails (A4).
    pub fn told(failure: Option<Failure>) -> Failure
        ensures { result ≡ told failure }
    {
        failure.unwrap_or(Failure { code: 0, detail: 0 })
    }
}

// What fails in a Copy of VM v, for a caller that knows the configuration to be legal and the VM to be one of it. No list is longer
// than 64 regions.
pub fn failure_of(regions: &Regions, v: u8, w: Window, p: Pieces) -> Option<Failure>
    ensures { result ≡ failing (copy_failure (may regions.now v) w p) }
{
    if Pieces::MOST < p.count {
        return Some(Failure {
            code: Failure::TOO_MANY,
            detail: u32::from(p.count),
        });
    }
    checking::first_failure(regions, v, w, &p.extents(), p.count as usize)
}
