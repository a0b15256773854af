// The public events: each event on any state, sound or not.
ghost use Rattle.std.specs.Prelude.{◌≡◌};
ghost use Rattle.rig_core.specs.Events.{inner_of, step_of};
ghost use Rattle.rig_core.specs.Memory.{copy_in, inner_memory, memory_after};

use crate::{Core, Stepped};
use change::Answer;
use event::Event;
use window::{Pieces, Window};

impl Core {
    // D1, D2. Each event is a method that takes the state by value (K3).
    pub fn start(self) -> Stepped
        ensures { result ≡ step_of self Event.Start }
    {
        self.step(Event::Start)
    }

    // D3 to D9.
    pub fn tick(self, at: u32) -> Stepped
        ensures { result ≡ step_of self (Event.Tick at) }
    {
        self.step(Event::Tick(at))
    }

    // D14 to D16.
    pub fn stop(self, v: u8) -> Stepped
        ensures { result ≡ step_of self (Event.Stop v) }
    {
        self.step(Event::Stop(v))
    }

    // D17.
    pub fn shutdown(self, v: u8) -> Stepped
        ensures { result ≡ step_of self (Event.Shutdown v) }
    {
        self.step(Event::Shutdown(v))
    }

    // D18, D19.
    pub fn restart(self, v: u8) -> Stepped
        ensures { result ≡ step_of self (Event.Restart v) }
    {
        self.step(Event::Restart(v))
    }

    // D20.
    pub fn extra(self, v: u8) -> Stepped
        ensures { result ≡ step_of self (Event.Extra v) }
    {
        self.step(Event::Extra(v))
    }

    // D24 to D30.
    pub fn call(self, service: u8, argument: u32, next: u32) -> Stepped
        ensures { result ≡ step_of self (Event.Call service argument next) }
    {
        self.step(Event::Call(service, argument, next))
    }

    // D21, D22.
    pub fn write(self, offset: u8, value: u32) -> Stepped
        ensures { result ≡ step_of self (Event.Write offset value) }
    {
        self.step(Event::Write(offset, value))
    }

    // D23.
    pub fn fault(self, code: u8, detail: u32) -> Stepped
        ensures { result ≡ step_of self (Event.Fault code detail) }
    {
        self.step(Event::Fault(code, detail))
    }

    // D31 to D36: a Copy with the memory that is lent for it, from the base address on. All of it is checked before a byte moves (D35).
    pub fn copy(self, p: Pieces, m: &mut [u8], base: u32) -> Stepped
        ensures { (result ≡ step_of self (copy_in p base m.old)) × (m.new ≡ memory_after self (copy_in p base m.old) m.old) }
    {
        if self.sound() {
            return self.copied(p, m, base);
        }
        self.refused(1)
    }

    // The same on a state that the caller knows to be sound: it is not tested.
    pub fn copied(self, p: Pieces, m: &mut [u8], base: u32) -> Stepped
        ensures { (result ≡ inner_of self (copy_in p base m.old)) × (m.new ≡ inner_memory self (copy_in p base m.old) m.old) }
    {
        let mut core = self;
        let answer = core.apply_copy(p, m, base);
        Stepped { core, answer }
    }

    // The same on a core where it stands.
    pub fn apply_copy(&mut self, p: Pieces, m: &mut [u8], base: u32) -> Answer
        ensures core { self.new ≡ (inner_of self.old (copy_in p base m.old)).core }
        ensures answer { result ≡ (inner_of self.old (copy_in p base m.old)).answer }
        ensures memory { m.new ≡ inner_memory self.old (copy_in p base m.old) m.old }
    {
        let w = Window {
            base,
            size: m.len(),
        };
        let answer = self.apply(Event::Copy(p, w));
        if answer.refusal == 0 && answer.notice.kind == 0 {
            window::copy_all(m, base, p.extents(), p.count as usize);
        }
        answer
    }

    // Any event: the state after it, with the answer (T8), or its refusal (R1).
    pub fn step(self, e: Event) -> Stepped
        ensures { result ≡ step_of self e }
    {
        if self.sound() {
            self.inner(e)
        } else {
            self.refused(1)
        }
    }
}
