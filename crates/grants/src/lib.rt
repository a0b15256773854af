// Who may access what: the access query over regions (H8 to H11).
#![tactic(auto)]

mod walk;

ghost use Rattle.std.specs.Prelude.{leb, ◌≡◌};
ghost use Rattle.basis.specs.Choice.{both};
ghost use Rattle.grants.specs.Access.{allowed};

use regions::Regions;

// Whether VM v may access so many bytes from an address on, in one way (H8 to H10), for a caller that knows the configuration to be
// legal, and the VM and the way to be known: neither is tested. No list is longer than 64 regions.
pub fn allows(regions: &Regions, v: u8, address: u32, length: u32, way: u8) -> bool
    ensures { result ≡ both (leb regions.now.count 64) (allowed regions.now v address length way) }
{
    regions.count <= Regions::MOST && walk::allowed(regions, v, address, length, way)
}
