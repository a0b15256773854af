// The changes of one VM that events share, over small values.
ghost use Rattle.std.specs.Prelude.{leb, ◌≡◌};
ghost use Rattle.basis.specs.Choice.{pick};
ghost use Rattle.basis.specs.Nobody.{nobody};
ghost use Rattle.change.specs.Answers.{error_of, notice_of};
ghost use Rattle.change.specs.Changes.{answer_by, called_from, copying_from, delivering_from, ending_from, failing_from, renewed_from, restarting_from, running_without, ticking_from, turned_away_from};
ghost use Rattle.guest.specs.Deliver.{deliver};
ghost use Rattle.guest.specs.Record.{error_standing, pend, stopped_standing};
ghost use Rattle.queue.specs.Entries.{pushed};
ghost use Rattle.vms.specs.Tick.{number_of};

use crate::{Answer, Change, Notice};
use guest::{Delivery, Vm};
use queue::Queue;

impl Change {
    // The record changes, and nothing else.
    pub fn renewed(v: u8, vm: Vm, running: u8, queue: Queue, delivered: u8) -> Change
        ensures { result ≡ renewed_from running queue v vm delivered }
    {
        Change {
            place: v,
            vm,
            running,
            queue,
            delivered,
            notice: Notice::default(),
            result: 0,
            removed: 0,
        }
    }

    // The answer of a change, with its refusal, who runs and where (A1).
    pub fn answer(self, refusal: u8, running: u8, address: u32) -> Answer
        ensures { result ≡ answer_by self refusal running address }
    {
        Answer {
            refusal,
            running,
            address,
            delivered: self.delivered,
            notice: self.notice,
            result: self.result,
            removed: self.removed,
        }
    }

    // D11, D12 within a Call.
    pub fn delivering(v: u8, d: Delivery, running: u8, queue: Queue) -> Change
        ensures { result ≡ renewed_from running queue v d.vm (number_of d.number) }
    {
        Change::renewed(v, d.vm, running, queue, vms::number_of(d.number))
    }

    // D6 to D9: the tick enters the VM that runs; `queue` is what the tick left of it.
    pub fn ticking(who: u8, vm: Vm, queue: Queue, left: u32, handler: u32) -> Change
        ensures { result ≡ ticking_from queue who vm left handler }
    {
        Change::delivering(who, vm.entered_if(who < 8, left, handler), who, queue)
    }

    // D14, D15, A8: the VM ends, its entries leave the queue, and where it was running nobody runs.
    pub fn ending(v: u8, vm: Vm, standing: u8, running: u8, queue: Queue, told: Notice) -> Change
        ensures { result ≡ ending_from running queue v vm standing told }
    {
        let gone = queue.without(v);
        let runs = without(running, v);
        Change {
            notice: told,
            removed: gone.count,
            ..Change::renewed(v, vm.ended(standing), runs, gone.queue, Answer::NOTHING)
        }
    }

    // D14 to D16, A4: the master stops it.
    pub fn stopping(v: u8, vm: Vm, running: u8, queue: Queue) -> Change
        ensures { result ≡ ending_from running queue v vm stopped_standing (notice_of 1 v) }
    {
        let told = Notice::told(1, v, 0, 0);
        Change::ending(v, vm, Vm::STOPPED, running, queue, told)
    }

    // D23, A4, A5.
    pub fn failing(v: u8, vm: Vm, running: u8, queue: Queue, code: u8, detail: u32) -> Change
        ensures { result ≡ ending_from running queue v vm error_standing (error_of v code detail) }
    {
        let told = Notice::told(3, v, code, detail);
        Change::ending(v, vm, Vm::ERROR, running, queue, told)
    }

    // D18, D19, A8.
    pub fn restarting(v: u8, entry: u32, running: u8, queue: Queue) -> Change
        ensures { result ≡ restarting_from running queue v entry }
    {
        let cleared = queue.without(v);
        Change {
            removed: cleared.count,
            ..Change::renewed(
                v,
                Vm::started(entry),
                running,
                cleared.queue,
                Answer::NOTHING,
            )
        }
    }

    // D20, D29: one entry more.
    pub fn queueing(v: u8, vm: Vm, running: u8, queue: Queue) -> Change
        ensures { result ≡ renewed_from running (pushed v queue) v vm nobody }
    {
        Change::renewed(v, vm, running, queue.pushed(v), Answer::NOTHING)
    }

    // D29, A6: the queue is full.
    pub fn turned_away(v: u8, vm: Vm, running: u8, queue: Queue) -> Change
        ensures { result ≡ turned_away_from running queue v vm }
    {
        Change {
            result: 1,
            ..Change::renewed(v, vm, running, queue, Answer::NOTHING)
        }
    }

    // D25 to D30: what a Call makes of VM v, whose next address is stored.
    #[tactic(auto, using(basis::proofs::Laws::ways), unfolding(crate::specs::Changes::called_from))]
    pub fn called(
        v: u8,
        vm: Vm,
        running: u8,
        queue: Queue,
        full: bool,
        handler: u32,
        service: u8,
        argument: u32,
    ) -> Change
        ensures { result ≡ called_from running queue full handler v service argument vm }
    {
        match service {
            0 => Change::delivering(v, vm.delivered(handler), running, queue),
            1 => Change::delivering(v, vm.returned().delivered(handler), running, queue),
            2 => Change::injected(v, vm, running, queue, handler, argument),
            3 => Change::ending(v, vm, Vm::DOWN, running, queue, Notice::told(2, v, 0, 0)),
            4 if full => Change::turned_away(v, vm, running, queue),
            4 => Change::queueing(v, vm, running, queue),
            _ => Change::failing(v, vm, running, queue, 1, service as u32),
        }
    }

    // D31 to D36: what a Copy makes of VM v, whose next address is stored; code 0 means that nothing failed.
    #[tactic(auto, using(basis::proofs::Laws::ways), unfolding(crate::specs::Changes::copying_from))]
    pub fn copying(v: u8, vm: Vm, running: u8, queue: Queue, code: u8, detail: u32) -> Change
        ensures { result ≡ copying_from running queue v vm code detail }
    {
        if code == 0 {
            return Change::renewed(v, vm, running, queue, Answer::NOTHING);
        }
        Change::failing(v, vm, running, queue, code, detail)
    }

    // D27: the number becomes pending, then there is a delivery.
    fn injected(v: u8, vm: Vm, running: u8, queue: Queue, handler: u32, argument: u32) -> Change
        ensures { result ≡ pick (leb argument 31) (delivering_from running queue v (deliver handler (pend argument vm))) (failing_from running queue v vm 2 argument) }
    {
        if argument <= 31 {
            let pended = vm.pended(argument as u8);
            let given = pended.delivered(handler);
            return Change::delivering(v, given, running, queue);
        }
        Change::failing(v, vm, running, queue, 2, argument)
    }
}

#[tactic(auto, using(basis::proofs::Laws::ways), unfolding(crate::specs::Changes::running_without))]
fn without(running: u8, v: u8) -> u8
    ensures { result ≡ running_without running v }
{
    if running == v {
        Answer::NOBODY
    } else {
        running
    }
}
