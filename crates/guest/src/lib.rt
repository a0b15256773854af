// One VM: its record, the delivery of pseudo-interrupts to it, and the changes that events make in it.
#![tactic(auto)]

mod bits;

ghost use Rattle.std.specs.Prelude.{◌≡◌, ◌<◌};
ghost use Rattle.basis.specs.Choice.{pick};
ghost use Rattle.guest.specs.Deliver.{back_from, deliver, enter, interrupt, quiet, shown};
ghost use Rattle.guest.specs.Record.{ended_as, fresh, is_fresh, is_ready, older, pend, saved_at, started_at};
ghost use Rattle.guest.specs.Write.{is_field, stored, write};

// The ten status fields. The VM reads them, and writes them by the offsets of F1 to F10.
#[repr(C)]
#[derive(Clone, Copy, Default)]
pub struct Status {
    pub since: u32, // F1, ticksSinceStart
    pub left: u32, // F2, ticksLeftInTimeslice
    pub enabled: u32, // F3, psIntEnabled
    pub pending: u32, // F4, psIntPending
    pub resume: u32, // F5, psIntResumeAddress
    pub reason: u32, // F6, psIntReason
    pub previous: u32, // F7, psIntPreviousEnabled
    pub restore: u32, // F8, psIntRestoreRegister
    pub ontick: u32, // F9, psIntGenerateOnTick
    pub running: u32, // F10, ticksWhileRunning
}

// A VM record (T2): all that the core knows of a VM (G2).
#[repr(C)]
#[derive(Clone, Copy, Default)]
pub struct Vm {
    pub standing: u8, // NONE, or one of the four of T3
    pub address: u32, // where the VM goes on when it next runs
    pub status: Status,
    pub age: u32, // ticks since its last start (T4)
    pub ran: u32, // those of them in which it ran (T4)
}

// A VM after a delivery, and the number of the pseudo-interrupt that was delivered, if one was (A3).
#[derive(Clone, Copy)]
pub struct Delivery {
    pub vm: Vm,
    pub number: Option<u8>,
}

impl Vm {
    // The standings (T3); NONE is that of a VM that was never started. They are numbers, as the C interface has them and as a host may
    // hold any byte in their place (W12).
    pub const NONE: u8 = 0;

    pub const READY: u8 = 1;

    pub const STOPPED: u8 = 2;

    pub const DOWN: u8 = 3;

    pub const ERROR: u8 = 4;

    // No number over it is a standing (W12).
    pub const LAST: u8 = 4;

    // The pseudo-interrupt that Shutdown makes pending (D17).
    pub const SHUTDOWN: u8 = 11;

    // A VM that was never started (T6).
    pub fn fresh() -> Vm
        ensures { result ≡ fresh }
    {
        Vm::default()
    }

    // A VM as Start and Restart make it (D1).
    pub fn started(entry: u32) -> Vm
        ensures { result ≡ started_at entry }
    {
        Vm {
            standing: Vm::READY,
            address: entry,
            ..Vm::default()
        }
    }

    // T3.
    pub fn is_ready(self) -> bool
        ensures { result ≡ is_ready self }
    {
        self.standing == Vm::READY
    }

    // W2, of one record: its numbers joined as bits, in the reverse of the definition's order.
    #[tactic(auto, using(basis::proofs::Laws::or_none, basis::proofs::Laws::both_assoc), unfolding(crate::specs::Record::is_fresh, crate::specs::Record::is_blank))]
    pub fn is_fresh(self) -> bool
        ensures { result ≡ is_fresh self }
    {
        let s = self.status;
        let low = self.ran | self.age | s.running | s.ontick | s.restore | s.previous | s.reason;
        let fields = low | s.resume | s.pending | s.enabled | s.left | s.since;
        fields | self.address | self.standing as u32 == 0
    }

    // D3, D24.
    pub fn saved(self, at: u32) -> Vm
        ensures { result ≡ saved_at at self }
    {
        Vm {
            address: at,
            ..self
        }
    }

    // D4, of one VM, by a wrapping add (K4).
    pub fn older(self) -> Vm
        ensures { result ≡ older self }
    {
        Vm {
            age: self.age.wrapping_add(1),
            ..self
        }
    }

    // D14, D16.
    pub fn ended(self, standing: u8) -> Vm
        ensures { result ≡ ended_as standing self }
    {
        Vm { standing, ..self }
    }

    // D17, D27.
    #[tactic(auto, using(basis::proofs::Laws::ways), unfolding(crate::specs::Record::pend))]
    pub fn pended(self, n: u8) -> Vm
        ensures { result ≡ pend n self }
    {
        if 31 < n {
            return self;
        }
        Vm {
            status: Status {
                pending: bits::with_bit(self.status.pending, n),
                ..self.status
            },
            ..self
        }
    }

    // D11: nothing is delivered.
    fn quiet(self) -> Delivery
        ensures { result ≡ quiet self }
    {
        Delivery {
            vm: self,
            number: None,
        }
    }

    // D11, D12. Mostly the fields share no number, and then no walk is made.
    pub fn delivered(self, handler: u32) -> Delivery
        ensures { result ≡ deliver handler self }
    {
        if self.status.pending & self.status.enabled == 0 {
            return self.quiet();
        }
        match bits::due(self.status) {
            None => self.quiet(),
            Some(n) => Delivery {
                vm: self.interrupted(n, handler),
                number: Some(n),
            },
        }
    }

    // D12.
    fn interrupted(self, n: u8, handler: u32) -> Vm
        requires { n < 32 }
        ensures { result ≡ interrupt n handler self }
    {
        let s = self.status;
        Vm {
            address: handler,
            status: Status {
                enabled: 0,
                pending: bits::without_bit(s.pending, n),
                resume: self.address,
                reason: n as u32,
                previous: s.enabled,
                ..s
            },
            ..self
        }
    }

    // D8, by a wrapping add (K4). The fields show the core's own numbers: what the VM wrote there counts for nothing.
    #[tactic(auto, unfolding(crate::specs::Deliver::shown))]
    fn shown(self, left: u32) -> Vm
        ensures { result ≡ shown left self }
    {
        let s = self.status;
        let ran = self.ran.wrapping_add(1);
        Vm {
            status: Status {
                since: self.age,
                left,
                pending: s.pending | s.ontick,
                running: ran,
                ..s
            },
            ran,
            ..self
        }
    }

    // D8 and D9, for the VM that a tick runs.
    #[tactic(auto, unfolding(crate::specs::Deliver::enter))]
    pub fn entered(self, left: u32, handler: u32) -> Delivery
        ensures { result ≡ enter left handler self }
    {
        self.shown(left).delivered(handler)
    }

    pub fn entered_if(self, on: bool, left: u32, handler: u32) -> Delivery
        ensures { result ≡ pick on (enter left handler self) (quiet self) }
    {
        if on {
            self.entered(left, handler)
        } else {
            self.quiet()
        }
    }

    // D26, without the delivery.
    pub fn returned(self) -> Vm
        ensures { result ≡ back_from self }
    {
        let s = self.status;
        Vm {
            address: s.resume,
            status: Status {
                enabled: s.previous,
                ..s
            },
            ..self
        }
    }

    // D21, F1 to F10.
    #[tactic(auto, unfolding(crate::specs::Write::write))]
    pub fn written(self, offset: u8, value: u32) -> Vm
        ensures { result ≡ write offset value self }
    {
        Vm {
            status: self.status.stored(offset, value),
            ..self
        }
    }

    // F1 to F10.
    #[tactic(auto, unfolding(crate::specs::Write::is_field))]
    pub fn is_field(offset: u8) -> bool
        ensures { result ≡ is_field offset }
    {
        offset % 4 == 0 && offset <= 36
    }
}

impl Status {
    // D21, the fields, by their offsets.
    #[tactic(auto, unfolding(crate::specs::Write::stored))]
    fn stored(self, offset: u8, x: u32) -> Status
        ensures { result ≡ stored offset x self }
    {
        match offset {
            0 => Status { since: x, ..self },
            4 => Status { left: x, ..self },
            8 => Status { enabled: x, ..self },
            12 => Status { pending: x, ..self },
            16 => Status { resume: x, ..self },
            20 => Status { reason: x, ..self },
            24 => Status {
                previous: x,
                ..self
            },
            28 => Status { restore: x, ..self },
            32 => Status { ontick: x, ..self },
            36 => Status { running: x, ..self },
            _ => self,
        }
    }
}
