// The live core (T9, K6): one core that is lent and changed where it stands, and what a host in C or Rust calls.
#![tactic(auto)]

ghost use Rattle.std.specs.Prelude.{◌≡◌};
ghost use Rattle.basis.specs.Nobody.{nobody};
ghost use Rattle.change.specs.Answers.{quietly};
ghost use Rattle.config.specs.Sizes.{access};
ghost use Rattle.rig_core.specs.Events.{step_of};
ghost use Rattle.rig_core.specs.Memory.{copy_in, memory_after};
ghost use Rattle.live.specs.Host.{begun_from, inner_by, step_by};

use change::Answer;
use config::Config;
use event::Event;
use rig_core::{Core, Stepped};
use window::Pieces;

// An event as plain numbers: the kind of its record (E2 to E10), then what its body holds. What a kind does not have is not read. A Copy (E13) goes by core_copy: its kind is here as one that is no event's.
#[repr(C)]
#[derive(Clone, Copy)]
pub struct Input {
    pub kind: u8,
    pub byte: u8, // the VM, the service, the offset or the code
    pub word: u32, // the address of a Tick, the argument, the value or the data
    pub next: u32, // the next address of a Call
}

// A fresh core, or the fault of its image with the offset; the core beside a fault refuses every event with 1 (I10, T7).
#[repr(C)]
#[derive(Clone, Copy)]
pub struct Begun {
    pub fault: u8,
    pub offset: usize,
    pub core: Core,
}

// The live layer (T9, K6): any event on a core that is lent.
pub fn happen(c: &mut Core, e: Event) -> Answer
    ensures { (c.new ≡ (step_of c.old e).core) × (result ≡ (step_of c.old e).answer) }
{
    let after = Core::step(*c, e);
    *c = after.core;
    after.answer
}

// The fresh core of an image of any length (I7 to I10, T6, T7): fresh cores differ in the configuration alone, which is put into one that stands.
pub fn core_fresh(s: &[u8]) -> Begun
    ensures { result ≡ begun_from s.now }
{
    let mut first = Begun {
        fault: 0,
        offset: 0,
        core: Core::fresh(image_reader::no_config()),
    };
    match image_reader::read(s) {
        Ok(config) => first.core.config = config,
        Err(refused) => {
            first.fault = refused.fault.number();
            first.offset = refused.offset;
        }
    }
    first
}

// An event by value: the state after it, with the answer (T8).
pub fn core_step(c: Core, e: Input) -> Stepped
    ensures { result ≡ step_by c e }
{
    let mut after = c;
    let answer = core_live(&mut after, e);
    Stepped {
        core: after,
        answer,
    }
}

// The live layer for a host (T9): an event on the core that it lends. One that is not sound is refused with 1 (R1).
pub fn core_live(c: &mut Core, e: Input) -> Answer
    ensures { (c.new ≡ (step_by c.old e).core) × (result ≡ (step_by c.old e).answer) }
{
    if c.sound() {
        return core_inner(c, e);
    }
    barred()
}

// The same (T9) for a host that knows its core to be sound, since only these functions wrote it: nothing is tested. What is no event is
// refused with 10, as in a log.
pub fn core_inner(c: &mut Core, e: Input) -> Answer
    ensures { (c.new ≡ (inner_by c.old e).core) × (result ≡ (inner_by c.old e).answer) }
{
    match Event::asked(e.kind, e.byte, e.word, e.next) {
        Some(event) => {
            let after = c.inner(event);
            *c = after.core;
            after.answer
        }
        None => c.refusal(10),
    }
}

// A Copy for a host (T9, E13, E14, D31 to D37): on the core that it lends, with the window that it lends beside it, from the base address on. All of it or nothing (D35). A core that is not sound is refused with 1 (R1).
pub fn core_copy(c: &mut Core, p: Pieces, m: &mut [u8], base: u32) -> Answer
    ensures { (c.new ≡ (step_of c.old (copy_in p base m.old)).core) × (result ≡ (step_of c.old (copy_in p base m.old)).answer) × (m.new ≡ memory_after c.old (copy_in p base m.old) m.old) }
{
    if c.sound() {
        let after = c.copied(p, m, base);
        *c = after.core;
        return after.answer;
    }
    barred()
}

// The access query for a host (H8 to H11).
pub fn core_allows(config: Config, vm: u8, address: u32, length: u32, way: u8) -> bool
    ensures { result ≡ access config vm address length way }
{
    config.allows(vm, address, length, way)
}

// The answer of a state that is not sound (R3).
fn barred() -> Answer
    ensures { result ≡ quietly 1 nobody 0 }
{
    Answer::quiet(1, Answer::NOBODY, 0)
}
