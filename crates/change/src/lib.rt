// What an event answers (A1 to A8), and what it makes of one VM, of who runs and of the queue.
#![tactic(auto)]

mod changes;

ghost use Rattle.std.specs.Prelude.{◌≡◌};
ghost use Rattle.change.specs.Answers.{notice_with, quietly};

use guest::Vm;
use queue::Queue;

// A notice (A4, A5). Kind 0 is none, as the C interface has it.
#[repr(C)]
#[derive(Clone, Copy, Default)]
pub struct Notice {
    pub kind: u8,
    pub vm: u8,
    pub code: u8,
    pub detail: u32,
}

// An answer (A1). `running` is NOBODY where no VM runs, `delivered` NOTHING where nothing was delivered; `removed` counts
// the entries that the event took out of the queue (A8).
#[repr(C)]
#[derive(Clone, Copy)]
pub struct Answer {
    pub refusal: u8,
    pub running: u8,
    pub address: u32,
    pub delivered: u8,
    pub notice: Notice,
    pub result: u8,
    pub removed: u8,
}

// What an event makes of one VM, of who runs and of the queue, with the rest of its answer.
#[derive(Clone, Copy)]
pub struct Change {
    pub place: u8,
    pub vm: Vm,
    pub running: u8,
    pub queue: Queue,
    pub delivered: u8,
    pub notice: Notice,
    pub result: u8,
    pub removed: u8,
}

impl Notice {
    // A4, A5.
    pub fn told(kind: u8, vm: u8, code: u8, detail: u32) -> Notice
        ensures { result ≡ notice_with kind vm code detail }
    {
        Notice {
            kind,
            vm,
            code,
            detail,
        }
    }
}

impl Answer {
    pub const NOBODY: u8 = basis::NOBODY;

    pub const NOTHING: u8 = basis::NOBODY;

    // An answer that tells nothing but who runs and where (A7, R3).
    pub fn quiet(refusal: u8, running: u8, address: u32) -> Answer
        ensures { result ≡ quietly refusal running address }
    {
        Answer {
            refusal,
            running,
            address,
            delivered: Answer::NOTHING,
            notice: Notice::default(),
            result: 0,
            removed: 0,
        }
    }
}
