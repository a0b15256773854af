// The rules about the places of a configuration: S4 to S7. A loop leaves early only where it searches, so that the others compile to vector code.
ghost use Rattle.std.specs.Prelude.{◌≡◌, ◌%◌, ◌^◌, ◌≤◌, true, ◌==◌, bit_or, nat_eq, nat_le, nat_lt, slice_index};
ghost use Rattle.basis.specs.Bits.{bit};
ghost use Rattle.basis.specs.Bounds.{empty_past};
ghost use Rattle.basis.specs.Choice.{both, either, pick};
ghost use Rattle.basis.specs.Count.{every, some};
ghost use Rattle.config.specs.Places.{NamedBy, NamedFrom, owner_fits, place_numbers, places_fit, ticks_fit};
ghost use Rattle.config.specs.Sizes.{is_spare, lasts, names};

use crate::{Config, numbers};
use basis::tests::both;

// S4 to S7.
pub fn all_fit(
    count: u8,
    slots: u8,
    entries: &[u32; 8],
    handlers: &[u32; 8],
    owners: &[u8; 64],
    durations: &[u16; 64],
) -> bool
    requires { (1 ≤ count) × (count ≤ 8) × (slots ≤ 64) }
    ensures { result ≡ places_fit count slots entries.now handlers.now owners.now durations.now }
{
    if slots_fit(count, slots, owners, durations) {
        let served = vms_served(count, slots, owners);
        let vms = vms_rest(count, entries, handlers);
        return both(served, vms);
    }
    false
}

// S4, S5 and S7 of the slots, in two walks over all 64 places: each joins faults of one width.
fn slots_fit(count: u8, slots: u8, owners: &[u8; 64], durations: &[u16; 64]) -> bool
    requires { 1 ≤ count }
    ensures { result ≡ both (every (λ k. owner_fits count slots k (slice_index owners.now k)) 64) (every (λ k. ticks_fit slots k (slice_index owners.now k) (slice_index durations.now k)) 64) }
{
    let bytes = numbers::BYTES;
    let named = owners_fit(count, slots, owners, &bytes);
    let halves = numbers::HALVES;
    let lasting = durations_fit(slots as u16, owners, durations, &halves);
    both(named, lasting)
}

// S5, and S7 of the owners.
fn owners_fit(count: u8, slots: u8, owners: &[u8; 64], places: &[u8; 64]) -> bool
    requires { (1 ≤ count) × (places.now ≡ place_numbers) }
    ensures { result ≡ every (λ k. owner_fits count slots k (slice_index owners.now k)) 64 }
{
    let last = count - 1;
    let mut bits: u8 = 0;
    let mut k: usize = 0;
    while k < 64 {
        bits = bits | owner_fault(places[k] < slots, last, owners[k]);
        k = k + 1;
    }
    bits == 0
}

// 0 for spare or a VM up to the last in a slot in use, and for 0 past them; else 1.
fn owner_fault(used: bool, last: u8, owner: u8) -> u8
    ensures { result ≡ pick (pick used (either (is_spare owner) (nat_le owner last)) (owner == 0)) 0 1 }
{
    let most = pick8(used, last, 0);
    let over = pick8(owner <= most, 0, 1);
    pick8(both(used, owner == Config::SPARE), 0, over)
}

fn pick8(on: bool, a: u8, b: u8) -> u8
    ensures { result ≡ pick on a b }
{
    if on { a } else { b }
}

// S4, and S7 of the durations.
fn durations_fit(slots: u16, owners: &[u8; 64], durations: &[u16; 64], places: &[u16; 64]) -> bool
    requires { places.now ≡ place_numbers }
    ensures { result ≡ every (λ k. ticks_fit slots k (slice_index owners.now k) (slice_index durations.now k)) 64 }
{
    let mut bits: u16 = 0;
    let mut k: usize = 0;
    while k < 64 {
        bits = bits | ticks_fault(places[k] < slots, owners[k], durations[k]);
        k = k + 1;
    }
    bits == 0
}

// 0 for the 1 tick of a spare slot, for 1 to 1,000 of a named one, and for none past the slots in use; else 1. One bound serves for both ends of the range.
fn ticks_fault(used: bool, owner: u8, ticks: u16) -> u16
    ensures { result ≡ pick (pick used (lasts owner ticks) (ticks == 0)) 0 1 }
{
    let least = pick16(used, 1, 0);
    let more = std::num::wrapping_sub_u16(ticks, least);
    let most = pick16(both(used, owner != Config::SPARE), Config::TICKS - 1, 0);
    pick16(more <= most, 0, 1)
}

fn pick16(on: bool, a: u16, b: u16) -> u16
    ensures { result ≡ pick on a b }
{
    if on { a } else { b }
}

// S6, where S5 holds. A short table is walked slot by slot; a long one for four VMs at a time, with all slots side by side.
fn vms_served(count: u8, slots: u8, owners: &[u8; 64]) -> bool
    requires { (count ≤ 8) × (slots ≤ 64) × (every (λ k. names count (slice_index owners.now k)) slots ≡ true) }
    ensures { result ≡ every (λ v. some (λ k. nat_eq (slice_index owners.now k) v) slots) count }
{
    if slots <= 16 {
        served_short(count, slots, owners)
    } else {
        served_long(count, slots, owners)
    }
}

// The numbers that the slots name, modulo 64, joined as bits.
fn served_short(count: u8, slots: u8, owners: &[u8; 64]) -> bool
    requires { (count ≤ 8) × (slots ≤ 64) }
    ensures { result ≡ every (λ v. some (λ k. nat_eq (slice_index owners.now k % 64) v) slots) count }
{
    let n = slots as usize;
    let mut seen: u64 = 0;
    let mut k: usize = 0;
    while k < n {
        seen = seen | power(owners[k]);
        k = k + 1;
    }
    has_all(count, seen)
}

fn served_long(count: u8, slots: u8, owners: &[u8; 64]) -> bool
    requires { (count ≤ 8) × (slots ≤ 64) }
    ensures { result ≡ every (λ v. some (λ k. nat_eq (slice_index owners.now k) v) slots) count }
{
    let bytes = numbers::BYTES;
    let low = named_from(0, slots, owners, &bytes) as u64;
    if count <= 4 {
        return has_all(count, low);
    }
    let high = named_from(4, slots, owners, &bytes) as u64;
    both(has_all(4, low), has_all(count - 4, high))
}

// A bit for each of the four VMs from `first` on: whether a slot names it.
fn named_from(first: u8, slots: u8, owners: &[u8; 64], places: &[u8; 64]) -> u8
    requires { (first ≤ 4) × (slots ≤ 64) × (places.now ≡ place_numbers) }
    ensures { NamedFrom first slots owners.now result }
{
    let mut seen: u8 = 0;
    let mut k: usize = 0;
    while k < 64 {
        seen = seen | named_by(places[k] < slots, owners[k], first);
        k = k + 1;
    }
    seen
}

// The bit of the VM that a slot in use names, where it is one of the four.
fn named_by(used: bool, owner: u8, first: u8) -> u8
    requires { first ≤ 4 }
    ensures { NamedBy used owner first result }
{
    let named = pick8(used, owner, Config::SPARE);
    let a = pick8(named == first, 1, 0);
    let b = pick8(named == first + 1, 2, 0);
    let c = pick8(named == first + 2, 4, 0);
    let d = pick8(named == first + 3, 8, 0);
    a | b | c | d
}

// Whether the lowest n bits are all set.
fn has_all(n: u8, seen: u64) -> bool
    requires { n ≤ 8 }
    ensures { result ≡ every (λ v. bit v seen) n }
{
    let all = power(n) - 1;
    seen & all == all
}

fn power(v: u8) -> u64
    ensures { result ≡ 2 ^ (v % 64) }
{
    1 << (v % 64)
}

// S6, of any owners: whether each VM has a slot.
pub fn each_served(count: u8, slots: u8, owners: &[u8; 64]) -> bool
    requires { slots ≤ 64 }
    ensures { result ≡ every (λ v. some (λ k. nat_eq (slice_index owners.now k) v) slots) count }
{
    let mut v: u8 = 0;
    while v < count {
        if has_slot(v, slots, owners) {
            v = v + 1;
        } else {
            return false;
        }
    }
    true
}

fn has_slot(v: u8, slots: u8, owners: &[u8; 64]) -> bool
    requires { slots ≤ 64 }
    ensures { result ≡ some (λ k. nat_eq (slice_index owners.now k) v) slots }
{
    let n = slots as usize;
    let mut k: usize = 0;
    while k < n {
        if owners[k] == v {
            return true;
        }
        k = k + 1;
    }
    false
}

// S7, of the VM places.
fn vms_rest(count: u8, entries: &[u32; 8], handlers: &[u32; 8]) -> bool
    ensures { result ≡ every (λ k. empty_past count k (slice_index entries.now k) (slice_index handlers.now k)) 8 }
{
    let mut bits: u32 = 0;
    let mut k: usize = 0;
    while k < 8 {
        bits = bits | past(k as u32, count as u32, entries[k], handlers[k]);
        k = k + 1;
    }
    bits == 0
}

// The bits that place k holds past n places in use.
fn past(k: u32, n: u32, a: u32, b: u32) -> u32
    ensures { result ≡ pick (nat_lt k n) 0 (bit_or a b) }
{
    if k < n { 0 } else { a | b }
}
