// The fault of the record at the front of some bytes: one test after the other, in the order of I9.
ghost use Rattle.std.specs.Prelude.{◌≡◌};
ghost use Rattle.image_reader.specs.Faults.{fault_of};
ghost use Rattle.image_reader.specs.Records.{core_fault, owner_fault, place_fault, region_fault, slot_fault, vm_fault};

use crate::Fault;
use basis::numbers;
use config::Config;
use regions::{Region, Regions};

// I2, I8, I9.
#[tactic(auto, using(basis::proofs::Laws::tests), unfolding(crate::specs::Records::core_fault))]
pub fn check_core(s: &[u8]) -> Result<(), Fault>
    ensures { fault_of result ≡ core_fault s.now }
{
    if s.len() < 1 {
        return Err(Fault::Cut);
    }
    if s[0] != 1 {
        return Err(Fault::Kind);
    }
    if s.len() < 3 {
        return Err(Fault::Cut);
    }
    if s[1] < 1 || Config::VMS < s[1] || Config::ROOM < s[2] {
        return Err(Fault::Sizes);
    }
    Ok(())
}

// I3, I8, I9.
#[tactic(auto, using(basis::proofs::Laws::tests), unfolding(crate::specs::Records::vm_fault))]
pub fn check_vm(s: &[u8]) -> Result<(), Fault>
    ensures { fault_of result ≡ vm_fault s.now }
{
    if s.len() < 1 {
        return Err(Fault::Cut);
    }
    if s[0] != 2 {
        return Err(Fault::Kind);
    }
    if s.len() < 9 {
        return Err(Fault::Cut);
    }
    Ok(())
}

// I8, I9, I15; the kind is known.
#[tactic(auto, using(basis::proofs::Laws::tests), unfolding(crate::specs::Records::region_fault))]
pub fn check_region(vms: u8, before: &Regions, s: &[u8]) -> Result<(), Fault>
    ensures { fault_of result ≡ region_fault vms before.now s.now }
{
    if s.len() < 11 {
        return Err(Fault::Cut);
    }
    let region = Region {
        holder: s[1],
        permission: s[2],
        start: numbers::word(s, 3),
        last: numbers::word(s, 7),
    };
    check_place(vms, before, region)
}

// The faults of what a region record says, beside the regions before it.
#[tactic(auto, using(basis::proofs::Laws::tests), unfolding(crate::specs::Records::place_fault))]
fn check_place(vms: u8, before: &Regions, region: Region) -> Result<(), Fault>
    ensures { fault_of result ≡ place_fault vms before.now region.holder region.permission region.start region.last }
{
    if vms <= region.holder {
        return Err(Fault::RegionVm);
    }
    if !before.has_room(region.holder) {
        return Err(Fault::ManyRegions);
    }
    if !regions::is_known(region.permission) {
        return Err(Fault::Permission);
    }
    if region.last < region.start {
        return Err(Fault::Backwards);
    }
    if !before.agrees_all(region) {
        return Err(Fault::Overlap);
    }
    Ok(())
}

// I4, I8, I9.
#[tactic(auto, using(basis::proofs::Laws::tests), unfolding(crate::specs::Records::slot_fault))]
pub fn check_slot(count: u8, n: u8, s: &[u8]) -> Result<(), Fault>
    ensures { fault_of result ≡ slot_fault count n s.now }
{
    if s.len() < 1 {
        return Err(Fault::Cut);
    }
    if s[0] != 3 {
        return Err(Fault::Kind);
    }
    if s.len() < 4 {
        return Err(Fault::Cut);
    }
    if Config::SLOTS <= n {
        return Err(Fault::ManySlots);
    }
    check_owner(count, s[1], numbers::half(s, 2))
}

// The faults of a slot's VM and duration.
#[tactic(auto, using(basis::proofs::Laws::tests), unfolding(crate::specs::Records::owner_fault))]
fn check_owner(count: u8, owner: u8, ticks: u16) -> Result<(), Fault>
    ensures { fault_of result ≡ owner_fault count owner ticks }
{
    if owner == Config::SPARE {
        if ticks == 1 {
            return Ok(());
        }
        return Err(Fault::SpareTicks);
    }
    if count <= owner {
        return Err(Fault::SlotVm);
    }
    if ticks < 1 || Config::TICKS < ticks {
        return Err(Fault::NamedTicks);
    }
    Ok(())
}
