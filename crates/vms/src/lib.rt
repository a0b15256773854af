// The eight VM records of a core, lent where they stand: reading and replacing one, starting them, and the parts of a tick.
#![tactic(auto)]

ghost use Rattle.std.specs.Prelude.{min, ltb, get_or, set, ◌≡◌};
ghost use Rattle.basis.specs.Choice.{pick};
ghost use Rattle.basis.specs.Nobody.{nobody};
ghost use Rattle.config.specs.Sizes.{is_spare};
ghost use Rattle.guest.specs.Record.{fresh};
ghost use Rattle.vms.specs.Records.{aged_all, rest_fresh, standings_of, started_all};
ghost use Rattle.vms.specs.Tick.{number_of, saving};

use config::Config;
use guest::Vm;

// Record i (T2); the fresh record past the last.
pub fn vm_at(vms: &[Vm; 8], i: u8) -> Vm
    ensures { result ≡ get_or vms.now i fresh }
{
    if i < 8 { vms[i as usize] } else { Vm::fresh() }
}

// Record i (T2) replaced (K2); past the last there is none.
pub fn put_vm(vms: &mut [Vm; 8], i: u8, vm: Vm)
    ensures { vms.new ≡ set vms.old i vm }
{
    if i < 8 {
        vms[i as usize] = vm;
    }
}

// The standings, as numbers.
pub fn standings(vms: &[Vm; 8]) -> [u8; 8]
    ensures { result ≡ standings_of vms.now }
{
    [
        vms[0].standing,
        vms[1].standing,
        vms[2].standing,
        vms[3].standing,
        vms[4].standing,
        vms[5].standing,
        vms[6].standing,
        vms[7].standing,
    ]
}

// W2: whether the records past the VM count are as in a fresh state.
pub fn rest_fresh(vms: &[Vm; 8], count: u8) -> bool
    ensures { result ≡ rest_fresh count vms.now }
{
    for k in 0..8u8 {
        if count <= k && !vms[k as usize].is_fresh() {
            return false;
        }
    }
    true
}

// D1: each VM ready at its entry.
pub fn start_all(vms: &mut [Vm; 8], count: u8, entries: &[u32; 8])
    ensures { vms.new ≡ started_all count entries.now vms.old }
{
    for k in 0..at_most_8(count) {
        vms[k] = Vm::started(entries[k]);
    }
}

// D3: record i with the address where its VM goes on (K2); past the last nothing changes.
pub fn save(vms: &mut [Vm; 8], i: u8, at: u32)
    ensures { vms.new ≡ saving i at vms.old }
{
    if i < 8 {
        vms[i as usize] = vms[i as usize].saved(at);
    }
}

// D4: each VM one tick older (T4, K4).
pub fn age_all(vms: &mut [Vm; 8], count: u8)
    ensures { vms.new ≡ aged_all count vms.old }
{
    for i in 0..at_most_8(count) {
        vms[i] = vms[i].older();
    }
}

// Who runs in a slot (D6, D7), where `ready` says it of the record that the owner's number leads to.
pub fn runner(owner: u8, head: u8, ready: bool) -> u8
    ensures { result ≡ pick (is_spare owner) head (pick (ltb owner 8) (pick ready owner nobody) nobody) }
{
    if owner == Config::SPARE {
        return head;
    }
    if owner < 8 && ready {
        return owner;
    }
    basis::NOBODY
}

// The number of a pseudo-interrupt, or NOBODY for none (A3).
pub fn number_of(f: Option<u8>) -> u8
    ensures { result ≡ number_of f }
{
    f.unwrap_or(basis::NOBODY)
}

// A count that the eight records bear.
pub fn at_most_8(count: u8) -> usize
    ensures { result ≡ min count 8 }
{
    count.min(8) as usize
}
