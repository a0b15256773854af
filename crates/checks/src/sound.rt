// The test of soundness (W1 to W13) over the parts of a state, and the tests that it joins: of the queue, the clock, the runner, and the standings of the eight VMs.
ghost use Rattle.std.specs.Prelude.{◌≤◌, eqb, leb, ltb, get_or, not, ◌≡◌};
ghost use Rattle.basis.specs.Bounds.{within};
ghost use Rattle.basis.specs.Choice.{both, either};
ghost use Rattle.basis.specs.Count.{every};
ghost use Rattle.basis.specs.Nobody.{nobody};
ghost use Rattle.checks.specs.Sound.{sound_from};
ghost use Rattle.checks.specs.Standings.{none_in, ready_in};
ghost use Rattle.config.specs.Sizes.{config_of, is_spare};
ghost use Rattle.guest.specs.Record.{last_standing};
ghost use Rattle.queue.specs.Entries.{padded_of};
ghost use Rattle.regions.specs.Rules.{none};
ghost use Rattle.table.specs.Position.{has_ticked, is_started};

use basis::tests::{both, fault};
use config::Config;
use guest::Vm;
use queue::Queue;
use table::Clock;

// W1 to W13 of the parts of a state but for its regions; the test of the configuration, the longest, comes last.
pub fn parts_sound(
    vms: &[Vm; 8],
    clock: Clock,
    running: u8,
    queue: Queue,
    count: u8,
    room: u8,
    slots: u8,
    entries: &[u32; 8],
    handlers: &[u32; 8],
    owners: &[u8; 64],
    durations: &[u16; 64],
) -> bool
    ensures { result ≡ sound_from (config_of count room slots entries.now handlers.now owners.now durations.now none) clock running queue vms.now }
{
    let rest = vms::rest_fresh(vms, count);
    let standings = vms::standings(vms);
    let queued = queue_sound(queue, room, &standings);
    let begun = start_sound(clock, running == basis::NOBODY, queue.len, &standings);
    let duration = table::duration_at(clock.slot, durations);
    let placed = clock_sound(clock, slots, duration);
    let owner = table::owner_at(clock.slot, owners);
    let runs = runner_sound(running, owner, is_ready(&standings, running));
    let known = numbers_known(clock, &standings);
    let counted = queue.counted();
    if all(rest, queued, begun, placed, runs, known, counted) {
        config::parts_legal(count, room, slots, entries, handlers, owners, durations)
    } else {
        false
    }
}

// Whether VM v is ready; there is none past the last.
fn is_ready(standings: &[u8], v: u8) -> bool
    ensures { result ≡ ready_in standings.now v }
{
    let i = v as usize;
    if i < standings.len() {
        standings[i] == Vm::READY
    } else {
        false
    }
}

// W3, W4, W5; no queue is longer than its 16 places.
fn queue_sound(q: Queue, room: u8, standings: &[u8]) -> bool
    ensures { result ≡ both (leb q.len 16) (both (leb q.len room) (both (every (λ k. ready_in standings.now (get_or q.items k 0)) q.len) (padded_of q))) }
{
    if Queue::PLACES < q.len {
        return false;
    }
    if room < q.len {
        return false;
    }
    let items = q.items;
    both(entries_ready(&items, q.len, standings), q.padded())
}

// W4.
fn entries_ready(items: &[u8; 16], len: u8, standings: &[u8]) -> bool
    requires { len ≤ 16 }
    ensures { result ≡ every (λ k. ready_in standings.now (get_or items.now k 0)) len }
{
    let n = len as usize;
    let mut ok = true;
    let mut k: usize = 0;
    while k < n {
        ok = both(is_ready(standings, items[k]), ok);
        k = k + 1;
    }
    ok
}

// W6, W7.
fn start_sound(k: Clock, idle: bool, queued: u8, standings: &[u8; 8]) -> bool
    ensures { result ≡ both (either (has_ticked k) idle) (either (is_started k) (both (none_in standings.now) (both (eqb queued 0) (both idle (not (has_ticked k)))))) }
{
    if k.ticked == Clock::YES {
        return k.started == Clock::YES;
    }
    if idle {
        if k.started == Clock::YES {
            return true;
        }
        return both(none_ready(standings), queued == 0);
    }
    false
}

// W7, the VMs.
fn none_ready(standings: &[u8; 8]) -> bool
    ensures { result ≡ none_in standings.now }
{
    let mut bits: u8 = 0;
    let mut k: usize = 0;
    while k < 8 {
        bits = bits | fault(standings[k] != Vm::READY);
        k = k + 1;
    }
    bits == 0
}

// W8, W9.
fn clock_sound(k: Clock, slots: u8, duration: u16) -> bool
    ensures { result ≡ both (either (not (has_ticked k)) (ltb k.slot slots)) (either (not (has_ticked k)) (within 1 duration k.left)) }
{
    if k.ticked == Clock::YES {
        if k.slot < slots {
            if k.left < 1 {
                return false;
            }
            return k.left <= duration;
        }
        return false;
    }
    true
}

// W10, W11.
fn runner_sound(running: u8, owner: u8, ready: bool) -> bool
    ensures { result ≡ both (either (eqb running nobody) ready) (either (eqb running nobody) (either (eqb owner running) (is_spare owner))) }
{
    if running == basis::NOBODY {
        return true;
    }
    if ready {
        if owner == running {
            return true;
        }
        return owner == Config::SPARE;
    }
    false
}

// W12.
fn numbers_known(k: Clock, standings: &[u8; 8]) -> bool
    ensures { result ≡ both (leb k.started 1) (both (leb k.ticked 1) (every (λ j. leb (get_or standings.now j 0) last_standing) 8)) }
{
    if 1 < k.started {
        return false;
    }
    if 1 < k.ticked {
        return false;
    }
    standings_known(standings)
}

fn standings_known(standings: &[u8; 8]) -> bool
    ensures { result ≡ every (λ j. leb (get_or standings.now j 0) last_standing) 8 }
{
    let mut bits: u8 = 0;
    let mut k: usize = 0;
    while k < 8 {
        bits = bits | fault(standings[k] <= Vm::LAST);
        k = k + 1;
    }
    bits == 0
}

// All of them.
fn all(a: bool, b: bool, c: bool, d: bool, e: bool, f: bool, g: bool) -> bool
    ensures { result ≡ both a (both b (both c (both d (both e (both f g))))) }
{
    both(a, both(b, both(c, both(d, both(e, both(f, g))))))
}
