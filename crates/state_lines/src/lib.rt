// The whole state as lines, behind that of the event that left it.
// The functions ask for room on the page, as those of `lines` do.
#![tactic(auto)]

ghost use Rattle.std.specs.Prelude.{◌*◌, ◌≤◌, length, ◌≡◌};
ghost use Rattle.state_lines.specs.State.{clock_text, counts_text, fields_text, items_text, notice_text, queue_text, state_text, vm_text, vms_text};
ghost use Rattle.text.specs.Adds.{Adds, Room};

use change::Notice;
use guest::{Status, Vm};
use queue::Queue;
use rig_core::Core;
use table::Clock;
use text::Page;

// N9.
pub fn put_states(page: &mut Page, told: &Notice, core: &Core)
    requires { Room 1545 page.old }
    ensures { Adds (state_text told.now core.now) 1545 page.old page.new }
{
    put_notice(page, told);
    put_clock(page, &core.clock, core.running);
    put_queue(page, &core.queue);
    put_counts(page, &core.queue);
    put_vms(page, &core.vms);
}

fn put_notice(page: &mut Page, told: &Notice)
    requires { Room 40 page.old }
    ensures { Adds (notice_text told.now) 40 page.old page.new }
{
    page.put_word(b"notice ");
    lines::put_two(page, told.vm as u32, told.code as u32, b' ');
    page.put_number(told.detail, b'\n');
}

fn put_clock(page: &mut Page, k: &Clock, running: u8)
    requires { Room 60 page.old }
    ensures { Adds (clock_text k.now running) 60 page.old page.new }
{
    page.put_word(b"core ");
    lines::put_two(page, k.started as u32, k.ticked as u32, b' ');
    lines::put_two(page, k.slot as u32, k.left as u32, b' ');
    lines::put_choice(page, running, b'\n');
}

fn put_queue(page: &mut Page, q: &Queue)
    requires { Room 182 page.old }
    ensures { Adds (queue_text q.now) 182 page.old page.new }
{
    page.put_word(b"queue");
    let n = q.len.min(Queue::PLACES);
    put_items(page, &q.items, n as usize);
    page.put_byte(b'\n');
}

// The eight queue counts.
fn put_counts(page: &mut Page, q: &Queue)
    requires { Room 95 page.old }
    ensures { Adds (counts_text q.now.counts) 95 page.old page.new }
{
    page.put_word(b"counts");
    put_items(page, &q.counts, 8);
    page.put_byte(b'\n');
}

// The first n of these numbers, a space before each.
fn put_items(page: &mut Page, items: &[u8], n: usize)
    requires { (n ≤ length items.now) × Room (n * 11) page.old }
    ensures { Adds (items_text items.now n) (n * 11) page.old page.new }
{
    for item in &items[..n] {
        page.put_byte(b' ');
        page.put_decimal(*item as u32);
    }
}

fn put_vms(page: &mut Page, vms: &[Vm; 8])
    requires { Room 1168 page.old }
    ensures { Adds (vms_text vms.now) 1168 page.old page.new }
{
    for k in 0..8 {
        put_vm(page, k as u32, &vms[k]);
    }
}

fn put_vm(page: &mut Page, k: u32, vm: &Vm)
    requires { Room 146 page.old }
    ensures { Adds (vm_text k vm.now) 146 page.old page.new }
{
    page.put_word(b"vm ");
    lines::put_two(page, k, vm.standing as u32, b' ');
    page.put_address(vm.address, b' ');
    put_fields(page, &vm.status);
    lines::put_two(page, vm.age, vm.ran, b'\n');
}

// F1 to F10.
fn put_fields(page: &mut Page, f: &Status)
    requires { Room 90 page.old }
    ensures { Adds (fields_text f.now) 90 page.old page.new }
{
    page.put_address(f.since, b' ');
    page.put_address(f.left, b' ');
    page.put_address(f.enabled, b' ');
    page.put_address(f.pending, b' ');
    page.put_address(f.resume, b' ');
    page.put_address(f.reason, b' ');
    page.put_address(f.previous, b' ');
    page.put_address(f.restore, b' ');
    page.put_address(f.ontick, b' ');
    page.put_address(f.running, b' ');
}
