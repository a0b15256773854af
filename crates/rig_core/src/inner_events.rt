// The inner events: an event on a core that the caller knows to be sound, changed where it stands. They do not test that, and are total all the same.
ghost use Rattle.std.specs.Prelude.{◌≡◌};
ghost use Rattle.logic.specs.Changing.{place_from};
ghost use Rattle.rig_core.specs.Changes.{change_at, changed_by};
ghost use Rattle.rig_core.specs.Events.{done, inner_of};

use crate::{Core, Stepped};
use basis::places;
use change::{Answer, Change};
use config::Config;
use copies::Failure;
use event::Event;
use window::{Pieces, Window};

impl Core {
    // Any event: refused by its row (R1), and then nothing changes (R2), or done.
    pub fn apply(&mut self, e: Event) -> Answer
        ensures core { self.new ≡ (inner_of self.old e).core }
        ensures answer { result ≡ (inner_of self.old e).answer }
    {
        let place = logic::place_of(e, self.running);
        let ready = vms::vm_at(&self.vms, place).is_ready();
        let row = logic::row_of(
            e,
            self.clock.started,
            self.config.count,
            self.running,
            ready,
            self.config.room,
            self.queue.len,
        );
        if row != 0 {
            return self.refusal(row);
        }
        match e {
            Event::Start => self.begin(),
            Event::Tick(at) => self.move_on(at),
            Event::Copy(p, w) => self.move_bytes(p, w),
            _ => self.change(e),
        }
    }

    // The same by value.
    pub fn inner(self, e: Event) -> Stepped
        ensures { result ≡ inner_of self e }
    {
        let mut core = self;
        let answer = core.apply(e);
        Stepped { core, answer }
    }

    // D1, D2.
    fn begin(&mut self) -> Answer
        ensures core { self.new ≡ (done self.old Event.Start).core }
        ensures answer { result ≡ (done self.old Event.Start).answer }
    {
        vms::start_all(&mut self.vms, self.config.count, &self.config.entries);
        self.clock = self.clock.started();
        Answer::quiet(0, self.running, self.address())
    }

    // D3 to D9.
    fn move_on(&mut self, at: u32) -> Answer
        ensures core { self.new ≡ (done self.old (Event.Tick at)).core }
        ensures answer { result ≡ (done self.old (Event.Tick at)).answer }
    {
        vms::save(&mut self.vms, self.running, at);
        vms::age_all(&mut self.vms, self.config.count);
        self.clock = self.clock.next(self.config.slots, &self.config.durations);
        let owner = table::owner_at(self.clock.slot, &self.config.owners);
        let served = self.queue.served(owner == Config::SPARE);
        let ready = vms::vm_at(&self.vms, owner).is_ready();
        let who = vms::runner(owner, served.vm, ready);
        let vm = vms::vm_at(&self.vms, who);
        let handler = places::at(&self.config.handlers, who as usize, 0);
        let left = self.clock.left as u32;
        let turn = Change::ticking(who, vm, served.queue, left, handler);
        self.settle(turn)
    }

    // D31 to D36, but for the bytes: they are not part of the state (D37).
    fn move_bytes(&mut self, p: Pieces, w: Window) -> Answer
        ensures core { self.new ≡ (done self.old (Event.Copy p w)).core }
        ensures answer { result ≡ (done self.old (Event.Copy p w)).answer }
    {
        let v = self.running;
        let saved = vms::vm_at(&self.vms, v).saved(p.next);
        let failure = Failure::told(copies::failure_of(&self.config.regions, v, w, p));
        let change = Change::copying(v, saved, v, self.queue, failure.code, failure.detail);
        self.settle(change)
    }

    // D14 to D30: the other events, which are about one VM.
    fn change(&mut self, e: Event) -> Answer
        ensures core { self.new ≡ (changed_by self.old (change_at self.old e (place_from e self.old.running))).core }
        ensures answer { result ≡ (changed_by self.old (change_at self.old e (place_from e self.old.running))).answer }
    {
        let place = logic::place_of(e, self.running);
        let vm = vms::vm_at(&self.vms, place);
        let full = self.config.room <= self.queue.len;
        let entry = places::at(&self.config.entries, place as usize, 0);
        let handler = places::at(&self.config.handlers, place as usize, 0);
        let change = logic::change_of(
            e,
            place,
            vm,
            self.running,
            self.queue,
            full,
            0,
            entry,
            handler,
        );
        self.settle(change)
    }

    // A change made: the record at its place (K2), who runs, the queue.
    fn settle(&mut self, d: Change) -> Answer
        ensures core { self.new ≡ (changed_by self.old d).core }
        ensures answer { result ≡ (changed_by self.old d).answer }
    {
        vms::put_vm(&mut self.vms, d.place, d.vm);
        self.running = d.running;
        self.queue = d.queue;
        d.answer(0, self.running, self.address())
    }
}
