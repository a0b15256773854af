// The table's clock: where the core stands in the table, and how a tick moves it (D5).
#![tactic(auto)]

ghost use Rattle.std.specs.Prelude.{get_or, ◌≡◌};
ghost use Rattle.table.specs.Position.{enter_slot, fresh_clock, next_clock, started_clock};

use basis::places;

// Whether the core was started and has ticked, the current slot and the ticks left in it. The flags are numbers, as the C interface has
// them and as a host may hold any byte in their place (W12).
#[repr(C)]
#[derive(Clone, Copy)]
pub struct Clock {
    pub started: u8,
    pub ticked: u8,
    pub slot: u8,
    pub left: u16,
}

impl Clock {
    // A flag that is set.
    pub const YES: u8 = 1;

    pub const NO: u8 = 0;

    // The clock of a fresh core (T6).
    pub fn fresh() -> Clock
        ensures { result ≡ fresh_clock }
    {
        Clock {
            started: Clock::NO,
            ticked: Clock::NO,
            slot: 0,
            left: 0,
        }
    }

    // The clock of a core that is started (D1, D2).
    pub fn started(self) -> Clock
        ensures { result ≡ started_clock self }
    {
        Clock {
            started: Clock::YES,
            ..self
        }
    }

    // One tick on, in a table of `slots` slots (D5).
    #[tactic(auto, using(basis::proofs::Laws::ways, crate::proofs::Laws::first_slot, crate::proofs::Laws::next_slot), unfolding(crate::specs::Position::next_clock))]
    pub fn next(self, slots: u8, durations: &[u16]) -> Clock
        ensures { result ≡ next_clock slots durations.now self }
    {
        if self.ticked != Clock::YES {
            return self.entering(0, durations);
        }
        if 1 < self.left {
            return Clock {
                ticked: Clock::YES,
                left: self.left - 1,
                ..self
            };
        }
        if u16::from(self.slot) + 1 < u16::from(slots) {
            return self.entering(self.slot + 1, durations);
        }
        self.entering(0, durations)
    }

    // A slot begins, with all its ticks left.
    fn entering(self, slot: u8, durations: &[u16]) -> Clock
        ensures { result ≡ enter_slot durations.now self slot }
    {
        Clock {
            ticked: Clock::YES,
            slot,
            left: duration_at(slot, durations),
            ..self
        }
    }
}

// The ticks that a slot lasts; 0 past the last place.
pub fn duration_at(slot: u8, durations: &[u16]) -> u16
    ensures { result ≡ get_or durations.now slot 0 }
{
    places::at(durations, slot as usize, 0)
}

// The VM that a slot names, or Config::SPARE; 0 past the last place.
pub fn owner_at(slot: u8, owners: &[u8]) -> u8
    ensures { result ≡ get_or owners.now slot 0 }
{
    places::at(owners, slot as usize, 0)
}
