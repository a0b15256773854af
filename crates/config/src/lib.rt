// What a configuration is: the limits, the struct, the test that it keeps the rules of sizes and regions (S1 to S7, H1 to H6), and the
// access query (H8 to H11).
#![tactic(auto)]

mod numbers;
mod places;

ghost use Rattle.std.specs.Prelude.{◌≡◌, nat_le};
ghost use Rattle.basis.specs.Bounds.{within};
ghost use Rattle.basis.specs.Choice.{both};
ghost use Rattle.config.specs.Ranges.{Typed};
ghost use Rattle.config.specs.Sizes.{access, config_of, legal, vms_served};
ghost use Rattle.regions.specs.Rules.{none};

use regions::Regions;

// A configuration. It has 8 places for VMs, 64 for slots (S7) and 64 for regions (H1).
#[repr(C)]
#[derive(Clone, Copy)]
pub struct Config {
    pub count: u8, // how many VMs
    pub room: u8, // the queue's size
    pub slots: u8, // how many slots
    pub entries: [u32; 8], // each VM's entry address
    pub handlers: [u32; 8], // each VM's pseudo-interrupt handler
    pub owners: [u8; 64], // the VM that each slot names, or SPARE
    pub durations: [u16; 64], // the ticks that each slot lasts
    pub regions: Regions, // who may access which memory
}

impl Config {
    // The limits of S1 to S4 (K1).
    pub const VMS: u8 = 8;

    pub const ROOM: u8 = 16;

    pub const SLOTS: u8 = 64;

    pub const TICKS: u16 = 1000;

    pub const SPARE: u8 = basis::NOBODY;

    // Whether the configuration keeps S1 to S7 and H1 to H6.
    pub fn legal(&self) -> bool
        ensures { result ≡ legal self.now }
    {
        parts_legal(
            self.count,
            self.room,
            self.slots,
            &self.entries,
            &self.handlers,
            &self.owners,
            &self.durations,
        ) && self.regions.lawful(self.count)
    }

    // The access query: whether VM v may access so many bytes from an address on, in one way (H8 to H11). A caller that knows the
    // configuration to be legal asks `grants::allows`.
    #[tactic(auto, using(basis::proofs::Laws::tests, crate::proofs::Query::legal_few), unfolding(crate::specs::Sizes::access))]
    pub fn allows(&self, v: u8, address: u32, length: u32, way: u8) -> bool
        ensures { result ≡ access self.now v address length way }
    {
        v < self.count
            && regions::is_known(way)
            && self.legal()
            && grants::allows(&self.regions, v, address, length, way)
    }

    // S6: whether each VM has a slot; no table is longer than 64 slots.
    #[tactic(auto, using(basis::proofs::Laws::tests), unfolding(crate::specs::Sizes::vms_served, crate::specs::Sizes::has_slot))]
    pub fn serves_all(&self) -> bool
        ensures { result ≡ both (nat_le self.now.slots 64) (vms_served self.now) }
    {
        self.slots <= Config::SLOTS && places::each_served(self.count, self.slots, &self.owners)
    }
}

// Each value of the struct is `Typed` (S8): what the theorems about configurations ask for, every caller has.
pub fn typed(c: Config)
    ensures { Typed c }
{}

// The same test (S1 to S7) of a configuration without regions that is lent in its parts, so that nothing is copied.
pub fn parts_legal(
    count: u8,
    room: u8,
    slots: u8,
    entries: &[u32; 8],
    handlers: &[u32; 8],
    owners: &[u8; 64],
    durations: &[u16; 64],
) -> bool
    ensures { result ≡ legal (config_of count room slots entries.now handlers.now owners.now durations.now none) }
{
    counts_fit(count, room, slots)
        && places::all_fit(count, slots, entries, handlers, owners, durations)
}

// S1, S2 and S3.
fn counts_fit(count: u8, room: u8, slots: u8) -> bool
    ensures { result ≡ both (within 1 8 count) (both (nat_le room 16) (within 1 64 slots)) }
{
    1 <= count
        && count <= Config::VMS
        && room <= Config::ROOM
        && 1 <= slots
        && slots <= Config::SLOTS
}
