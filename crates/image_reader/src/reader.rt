// Reading the records one after the other: the VMs, the regions, the slots, the end.
ghost use Rattle.std.specs.Prelude.{◌+◌, ◌<◌, ◌^◌, ◌≤◌, drop, length, ◌≡◌};
ghost use Rattle.image_reader.specs.Reader.{begun, no_config, read_end, read_regions, read_slots, read_vms, reading_of};
ghost use Rattle.regions.specs.Rules.{none};

use crate::{Fault, Refused, records};
use basis::{numbers, places};
use config::Config;
use regions::Regions;

// The configuration that a core record begins.
pub fn begun(count: u8, room: u8) -> Config
    ensures { result ≡ begun count room }
{
    Config {
        count,
        room,
        slots: 0,
        entries: [0; 8],
        handlers: [0; 8],
        owners: [0; 64],
        durations: [0; 64],
        regions: Regions::none(),
    }
}

// A refused image hands out no configuration: zeros only stand beside its fault (I10).
pub fn no_config() -> Config
    ensures { result ≡ no_config }
{
    begun(0, 0)
}

// The VM records, which start behind the core record, and all that follows.
pub fn read_vms(s: &[u8], core: Config) -> Result<Config, Refused>
    requires { (3 ≤ length s.now) × (core.count ≤ 8) × (core.slots ≡ 0) }
    ensures { reading_of result ≡ read_vms core.count (drop 3 s.now) 3 core }
{
    let mut c = core;
    let mut at: usize = 3;
    for k in 0..core.count {
        let rest = &s[at..];
        records::check_vm(rest).map_err(|fault| fault.at(at))?;
        c.entries[k as usize] = numbers::word(rest, 1);
        c.handlers[k as usize] = numbers::word(rest, 5);
        at += 9;
    }
    read_regions(s, at, c)
}

// The region records from `from` on, and all that follows.
fn read_regions(s: &[u8], from: usize, vms: Config) -> Result<Config, Refused>
    requires { (from ≤ length s.now) × (vms.slots ≡ 0) }
    ensures { reading_of result ≡ read_regions 65 (drop from s.now) from vms none }
{
    let mut regions = Regions::none();
    let mut at = from;
    for n in 0..65 {
        let rest = &s[at..];
        if places::at(rest, 0, 0) != 5 {
            return read_slots(s, at, Config { regions, ..vms });
        }
        records::check_region(vms.count, &regions, rest).map_err(|fault| fault.at(at))?;
        regions.holders[n] = places::at(rest, 1, 0);
        regions.permissions[n] = places::at(rest, 2, 0);
        regions.starts[n] = numbers::word(rest, 3);
        regions.lasts[n] = numbers::word(rest, 7);
        regions.count += 1;
        at += 11;
    }
    Err(Fault::ManyRegions.at(at))
}

// The slot records from `from` on, and the end record.
fn read_slots(s: &[u8], from: usize, vms: Config) -> Result<Config, Refused>
    requires { (from ≤ length s.now) × (vms.slots ≡ 0) }
    ensures { reading_of result ≡ read_slots 65 (drop from s.now) from vms }
{
    let mut c = vms;
    let mut at = from;
    for n in 0..65 {
        let rest = &s[at..];
        if places::at(rest, 0, 0) == 4 {
            return read_end(rest, at, c);
        }
        records::check_slot(c.count, c.slots, rest).map_err(|fault| fault.at(at))?;
        c.owners[n] = places::at(rest, 1, 0);
        c.durations[n] = numbers::half(rest, 2);
        c.slots += 1;
        at += 4;
    }
    Err(Fault::ManySlots.at(at))
}

// The end record, with all that the image has still.
fn read_end(rest: &[u8], at: usize, c: Config) -> Result<Config, Refused>
    requires { (at + length rest.now < 2 ^ 64) × (1 ≤ length rest.now) × (c.slots ≤ 64) }
    ensures { reading_of result ≡ read_end rest.now at c }
{
    if !c.serves_all() {
        return Err(Fault::Unserved.at(at));
    }
    if rest.len() != 1 {
        return Err(Fault::Follows.at(at + 1));
    }
    Ok(c)
}
