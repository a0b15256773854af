// The core: its state, whether it is sound, and every event as a method that takes the state by value.
#![tactic(auto)]

mod inner_events;
mod public_events;

ghost use Rattle.std.specs.Prelude.{◌≡◌};
ghost use Rattle.rig_core.specs.Refusals.{refused};
ghost use Rattle.rig_core.specs.Sound.{sound};
ghost use Rattle.rig_core.specs.State.{address_of, fresh_core};

use change::Answer;
use checks::sound;
use config::Config;
use guest::Vm;
use queue::Queue;
use table::Clock;

// The whole state (T1), of one processor core (G1), with the VM records in it by value (K2). `running` is a VM's number, or NOBODY.
#[repr(C)]
#[derive(Clone, Copy)]
pub struct Core {
    pub config: Config,
    pub clock: Clock,
    pub running: u8,
    pub queue: Queue,
    pub vms: [Vm; 8],
}

// The state after an event, with the answer (T8).
#[repr(C)]
#[derive(Clone, Copy)]
pub struct Stepped {
    pub core: Core,
    pub answer: Answer,
}

impl Core {
    // The fresh core of a configuration (T6), by an associated constructor (K1). Built from an illegal one, it is not sound (T7).
    pub fn fresh(config: Config) -> Core
        ensures { result ≡ fresh_core config }
    {
        Core {
            config,
            clock: Clock::fresh(),
            running: Answer::NOBODY,
            queue: Queue::empty(),
            vms: [Vm::fresh(); 8],
        }
    }

    // Whether W1 to W13 hold.
    pub fn sound(&self) -> bool
        ensures { result ≡ sound self.now }
    {
        if sound::parts_sound(
            &self.vms,
            self.clock,
            self.running,
            self.queue,
            self.config.count,
            self.config.room,
            self.config.slots,
            &self.config.entries,
            &self.config.handlers,
            &self.config.owners,
            &self.config.durations,
        ) {
            if self.config.regions.count == 0 {
                return self.config.regions.blank();
            }
            return self.config.regions.lawful(self.config.count);
        }
        false
    }

    // A refusal: the state as it was (R2, R3).
    pub fn refused(self, n: u8) -> Stepped
        ensures { result ≡ refused self n }
    {
        Stepped {
            core: self,
            answer: self.refusal(n),
        }
    }

    // What a refusal answers (R3): where the state is not sound, no VM is shown.
    pub fn refusal(&self, n: u8) -> Answer
        ensures { result ≡ (refused self.now n).answer }
    {
        if n == 1 {
            return Answer::quiet(n, Answer::NOBODY, 0);
        }
        Answer::quiet(n, self.running, self.address())
    }

    // Where the VM that runs goes on; 0 where none runs (A7).
    fn address(&self) -> u32
        ensures { result ≡ address_of self.now }
    {
        vms::vm_at(&self.vms, self.running).address
    }
}
