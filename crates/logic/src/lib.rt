// The logic of the events, over small values: the VM that an event is about, the row that refuses it, the change that it makes.
// Everything that runs events uses it.
#![tactic(auto)]

ghost use Rattle.std.specs.Prelude.{◌≡◌};
ghost use Rattle.logic.specs.Changing.{change_from, place_from};
ghost use Rattle.logic.specs.Rows.{row_from};

use change::{Answer, Change};
use checks::rows;
use event::Event;
use guest::Vm;
use queue::Queue;

// The VM that an event is about (E11): the one that the master names, or the one that runs; NOBODY for Start and Tick.
pub fn place_of(e: Event, running: u8) -> u8
    ensures { result ≡ place_from e running }
{
    match e {
        Event::Start => basis::NOBODY,
        Event::Tick(_) => basis::NOBODY,
        Event::Stop(v) => v,
        Event::Shutdown(v) => v,
        Event::Restart(v) => v,
        Event::Extra(v) => v,
        Event::Call(_, _, _) => running,
        Event::Write(_, _) => running,
        Event::Fault(_, _) => running,
        Event::Copy(_, _) => running,
    }
}

// The row of the refusals that applies to an event (R1, from 7 on), or 0; `ready` says it of the VM that it is about.
pub fn row_of(
    e: Event,
    started: u8,
    count: u8,
    running: u8,
    ready: bool,
    room: u8,
    queued: u8,
) -> u8
    ensures { result ≡ row_from e started count running ready room queued }
{
    match e {
        Event::Start => rows::of_start(started),
        Event::Tick(_) => rows::of_tick(started),
        Event::Stop(v) => rows::of_ready(started, count, v, ready),
        Event::Shutdown(v) => rows::of_ready(started, count, v, ready),
        Event::Restart(v) => rows::of_any(started, count, v),
        Event::Extra(v) => rows::of_request(started, count, v, ready, room, queued),
        Event::Call(_, _, _) => rows::of_running(started, running),
        Event::Write(offset, _) => rows::of_write(started, running, offset),
        Event::Fault(code, _) => rows::of_fault(started, running, code),
        Event::Copy(_, _) => rows::of_running(started, running),
    }
}

// What an event that is not refused makes of the VM at its place. A Tick's place is the VM that it runs, and its queue what the
// tick left of it. But for a Tick and some Calls nothing is delivered (D13), so by a Write nothing (D22). Start and Copy are not made here.
pub fn change_of(
    e: Event,
    place: u8,
    vm: Vm,
    running: u8,
    queue: Queue,
    full: bool,
    left: u32,
    entry: u32,
    handler: u32,
) -> Change
    ensures { result ≡ change_from e place vm running queue full left entry handler }
{
    match e {
        Event::Start => Change::renewed(place, vm, running, queue, Answer::NOTHING),
        Event::Tick(_) => Change::ticking(place, vm, queue, left, handler),
        Event::Stop(_) => Change::stopping(place, vm, running, queue),
        Event::Shutdown(_) => {
            let waits = Answer::NOTHING;
            Change::renewed(place, vm.pended(Vm::SHUTDOWN), running, queue, waits)
        }
        Event::Restart(_) => Change::restarting(place, entry, running, queue),
        Event::Extra(_) => Change::queueing(place, vm, running, queue),
        Event::Call(service, argument, next) => {
            Change::called(
                place,
                vm.saved(next),
                running,
                queue,
                full,
                handler,
                service,
                argument,
            )
        }
        Event::Write(offset, value) => Change::renewed(
            place,
            vm.written(offset, value),
            running,
            queue,
            Answer::NOTHING,
        ),
        Event::Fault(code, detail) => Change::failing(place, vm, running, queue, code, detail),
        Event::Copy(_, _) => Change::renewed(place, vm, running, queue, Answer::NOTHING),
    }
}
