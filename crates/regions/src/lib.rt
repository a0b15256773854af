// The memory regions of a configuration: the structs, and the rules that they keep (H1 to H6).
#![tactic(auto, using(basis::proofs::Laws::every_next, basis::proofs::Laws::every_end), unfolding(basis::specs::Count::every, crate::specs::Rules::lawful, crate::specs::Rules::kept, crate::specs::Rules::blank, crate::specs::Rules::bytes_rest, crate::specs::Rules::words_rest, crate::specs::Rules::holders_fit, crate::specs::Rules::permissions_fit, crate::specs::Rules::ranges_fit, crate::specs::Rules::few_each, crate::specs::Rules::alike_all, crate::specs::Beside::agrees_all))]

mod overlap;
mod rules;

ghost use Rattle.std.specs.Prelude.{leb, ltb, ◌<◌, ◌≡◌};
ghost use Rattle.basis.specs.Choice.{both};
ghost use Rattle.regions.specs.Beside.{agrees_all};
ghost use Rattle.regions.specs.Rules.{blank, held, lawful, none, region_at};

pub use rules::is_known;

// Regions in the order of their records (H1); what belongs to one region stands at the same place of each array. They stay a count and
// four arrays, and no list of `Region`s: the C interface, whose struct this is.
#[repr(C)]
#[derive(Clone, Copy)]
pub struct Regions {
    pub count: u8, // how many regions
    pub holders: [u8; 64], // the VM of each region
    pub permissions: [u8; 64], // READ, WRITE or EXECUTE
    pub starts: [u32; 64],
    pub lasts: [u32; 64], // the last address of each region, which is in it
}

// One region, as its record has it (I15).
#[derive(Clone, Copy)]
pub struct Region {
    pub holder: u8,
    pub permission: u8,
    pub start: u32,
    pub last: u32,
}

impl Regions {
    // The limits of H1 and H5 (K1).
    pub const MOST: u8 = 64;

    pub const EACH: u8 = 8;

    // The permissions (H3): a region is read; read and written; executed only. The ways of a query (H8) have the same numbers.
    // They stay numbers, and no enum: the C interface, where any byte may stand in `permissions`.
    pub const READ: u8 = 1;

    pub const WRITE: u8 = 2;

    pub const EXECUTE: u8 = 3;

    // No regions (H11).
    pub fn none() -> Regions
        ensures { result ≡ none }
    {
        Regions {
            count: 0,
            holders: [0; 64],
            permissions: [0; 64],
            starts: [0; 64],
            lasts: [0; 64],
        }
    }

    // Whether the regions keep H1 to H6 in a configuration of so many VMs. Where there are none, only the places are left to look at.
    pub fn lawful(&self, vms: u8) -> bool
        ensures { result ≡ lawful vms self.now }
    {
        if self.count == 0 {
            return self.blank();
        }
        self.count <= Regions::MOST && rules::all_kept(self, vms)
    }

    // Whether all places hold zero (H1).
    pub fn blank(&self) -> bool
        ensures { result ≡ blank self.now }
    {
        rules::bytes_rest(self, 0) & rules::words_rest(self, 0)
    }

    // Whether there is a place for one more region of VM v (H1, H5).
    pub fn has_room(&self, v: u8) -> bool
        ensures { result ≡ both (ltb self.now.count 64) (ltb (held self.now.holders v self.now.count) 8) }
    {
        self.count < Regions::MOST && rules::held(v, self.count, &self.holders) < Regions::EACH
    }

    // H6: whether a new region agrees with all earlier ones; there are at most 64.
    pub fn agrees_all(&self, region: Region) -> bool
        ensures { result ≡ both (leb self.now.count 64) (agrees_all self.now region.holder region.permission region.start region.last) }
    {
        self.count <= Regions::MOST
            && (overlap::clear_of_all(self, self.count as usize, region)
                || overlap::agrees_each(self, region))
    }

    // The region at a place.
    pub fn at(&self, k: usize) -> Region
        requires { k < 64 }
        ensures { result ≡ region_at self.now k }
    {
        Region {
            holder: self.holders[k],
            permission: self.permissions[k],
            start: self.starts[k],
            last: self.lasts[k],
        }
    }
}
