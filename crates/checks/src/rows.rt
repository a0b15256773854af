// The rows of the refusals (R1) from 7 on, for each kind of event: the number of the first that applies, or 0.
ghost use Rattle.std.specs.Prelude.{eqb, leb, ltb, not, ◌≡◌};
ghost use Rattle.basis.specs.Bounds.{within};
ghost use Rattle.basis.specs.Choice.{pick};
ghost use Rattle.basis.specs.Nobody.{nobody};
ghost use Rattle.guest.specs.Write.{is_field};

use guest::Vm;
use table::Clock;

// Start.
pub fn of_start(started: u8) -> u8
    ensures { result ≡ pick (eqb started 1) 7 0 }
{
    if started == Clock::YES { 7 } else { 0 }
}

// Tick (R5).
pub fn of_tick(started: u8) -> u8
    ensures { result ≡ pick (not (eqb started 1)) 2 0 }
{
    if started == Clock::YES { 0 } else { 2 }
}

// Stop and Shutdown.
pub fn of_ready(started: u8, count: u8, v: u8, ready: bool) -> u8
    ensures { result ≡ pick (not (eqb started 1)) 2 (pick (not (ltb v count)) 3 (pick (not ready) 4 0)) }
{
    if started != Clock::YES {
        return 2;
    }
    if count <= v {
        return 3;
    }
    if ready {
        return 0;
    }
    4
}

// Restart, whatever the standing (R5).
pub fn of_any(started: u8, count: u8, v: u8) -> u8
    ensures { result ≡ pick (not (eqb started 1)) 2 (pick (not (ltb v count)) 3 0) }
{
    if started != Clock::YES {
        return 2;
    }
    if count <= v {
        return 3;
    }
    0
}

// Extra; a queue of size 0 is always full (R4).
pub fn of_request(started: u8, count: u8, v: u8, ready: bool, room: u8, queued: u8) -> u8
    ensures { result ≡ pick (not (eqb started 1)) 2 (pick (not (ltb v count)) 3 (pick (not ready) 4 (pick (leb room queued) 6 0))) }
{
    if started != Clock::YES {
        return 2;
    }
    if v >= count {
        return 3;
    }
    if ready {
        if room <= queued {
            return 6;
        }
        return 0;
    }
    4
}

// Call.
pub fn of_running(started: u8, running: u8) -> u8
    ensures { result ≡ pick (not (eqb started 1)) 2 (pick (eqb running nobody) 5 0) }
{
    if started != Clock::YES {
        return 2;
    }
    if running == basis::NOBODY {
        return 5;
    }
    0
}

// Write.
pub fn of_write(started: u8, running: u8, offset: u8) -> u8
    ensures { result ≡ pick (not (eqb started 1)) 2 (pick (eqb running nobody) 5 (pick (not (is_field offset)) 8 0)) }
{
    if started != Clock::YES {
        return 2;
    }
    if running == basis::NOBODY {
        return 5;
    }
    if Vm::is_field(offset) { 0 } else { 8 }
}

// Fault.
pub fn of_fault(started: u8, running: u8, code: u8) -> u8
    ensures { result ≡ pick (not (eqb started 1)) 2 (pick (eqb running nobody) 5 (pick (not (within 3 5 code)) 9 0)) }
{
    if started != Clock::YES {
        return 2;
    }
    if running == basis::NOBODY {
        return 5;
    }
    if code < 3 {
        return 9;
    }
    if 5 < code {
        return 9;
    }
    0
}
