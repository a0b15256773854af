// What the reader refuses (I7, I8).
ghost use Rattle.std.specs.Prelude.{◌≡◌};
ghost use Rattle.image_reader.specs.Faults.{fault_number};

// I8: the faults, each with its number.
#[derive(Clone, Copy, PartialEq, Eq, Debug)]
pub enum Fault {
    Cut = 20, // the bytes end before the record's kind, or before its body is whole
    Kind = 21, // a kind that is unknown, or that has no place here
    Sizes = 22, // the core record's VM count or queue size
    SlotVm = 23, // a slot that names no VM of the image and is not spare
    SpareTicks = 24, // a spare slot whose duration is not 1
    NamedTicks = 25, // a named slot whose duration is not 1 to 1,000
    ManySlots = 26, // a 65th slot
    Unserved = 27, // the end record, and some VM has no slot
    Follows = 28, // the end record, and bytes follow
    RegionVm = 32, // a region of a VM that is not in the image
    Permission = 33, // a region whose permission is not 1, 2 or 3
    Backwards = 34, // a region that starts after its last address
    ManyRegions = 35, // a ninth region of its VM
    Overlap = 36, // a region that overlaps one of another VM in a way that is not allowed
}

impl Fault {
    pub fn number(self) -> u8
        ensures { result ≡ fault_number self }
    {
        self as u8
    }

    pub(crate) fn at(self, offset: usize) -> Refused
        ensures { result ≡ record { fault = self; offset = offset } }
    {
        Refused {
            fault: self,
            offset,
        }
    }
}

// I7: the first fault, with the offset of the faulty record.
#[derive(Clone, Copy, PartialEq, Eq, Debug)]
pub struct Refused {
    pub fault: Fault,
    pub offset: usize,
}
