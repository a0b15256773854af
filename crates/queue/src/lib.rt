// The queue for extra time (T5): sixteen places, the oldest entry first, and a count for each VM. Each result has zeros past its
// entries (W5), and counts that follow what was done (T10), whether those before were right or not.
#![tactic(auto)]

ghost use Rattle.std.specs.Prelude.{◌≡◌, ◌≤◌, length, get_or, set};
ghost use Rattle.queue.specs.Entries.{Counted, cleared, counted_of, entries, front_of, holding, no_entries, others, padded_of, popped, pushed, removal, served};

use basis::places;

// A queue of sixteen places: its first `len` are its entries (T5), and each VM's are counted (T10).
#[repr(C)]
#[derive(Clone, Copy)]
pub struct Queue {
    pub items: [u8; 16], // VM numbers
    pub counts: [u8; 8], // how many of the entries are each VM's
    pub len: u8, // how many of the places are entries
}

// A queue that a VM's entries have left, and how many those were (A8).
#[derive(Clone, Copy)]
pub struct Removal {
    pub queue: Queue,
    pub count: u8,
}

// Who is served at a tick, or NOBODY, and the queue that is left.
#[derive(Clone, Copy)]
pub struct Served {
    pub vm: u8,
    pub queue: Queue,
}

impl Queue {
    pub const PLACES: u8 = 16;

    // T6.
    pub fn empty() -> Queue
        ensures { result ≡ no_entries }
    {
        Queue {
            items: [0; 16],
            len: 0,
            counts: [0; 8],
        }
    }

    // The queue of some entries, with zeros past them (W5), and these counts.
    fn holding(entries: &[u8], counts: [u8; 8]) -> Queue
        requires { length entries.now ≤ 16 }
        ensures { result ≡ holding entries.now counts }
    {
        let mut items = [0; 16];
        items[..entries.len()].copy_from_slice(entries);
        Queue {
            items,
            len: entries.len() as u8,
            counts,
        }
    }

    // The entries, the oldest first (T5); no more than there are places.
    fn entries(&self) -> &[u8]
        ensures { result.now ≡ entries self.now }
    {
        &self.items[..self.len.min(Queue::PLACES) as usize]
    }

    // Who is served at a tick, and what is left: at a spare tick the oldest entry leaves, if there is one (D7).
    pub fn served(self, spare: bool) -> Served
        ensures { result ≡ served spare self }
    {
        if spare {
            Served {
                vm: self.front(),
                queue: self.popped(),
            }
        } else {
            Served {
                vm: basis::NOBODY,
                queue: self,
            }
        }
    }

    // The oldest entry, or NOBODY.
    fn front(&self) -> u8
        ensures { result ≡ front_of (entries self.now) }
    {
        places::at(self.entries(), 0, basis::NOBODY)
    }

    // Without the oldest entry, if there is one (D7).
    fn popped(&self) -> Queue
        ensures { result ≡ popped self.now }
    {
        match self.entries() {
            [] => Queue::holding(&[], self.counts),
            [oldest, left @ ..] => Queue::holding(
                left,
                self.with_count(*oldest, self.count(*oldest).saturating_sub(1)),
            ),
        }
    }

    // With one entry for v at its end, unless all places are taken (D20, D29).
    pub fn pushed(self, v: u8) -> Queue
        ensures { result ≡ pushed v self }
    {
        if self.len >= Queue::PLACES {
            return self;
        }
        let counts = self.with_count(v, self.count(v).wrapping_add(1));
        let mut longer = Queue::holding(self.entries(), counts);
        longer.items[self.len as usize] = v;
        longer.len += 1;
        longer
    }

    // Without the entries for v, and how many those were (D14, D18, A8): as many as it is shorter.
    pub fn without(self, v: u8) -> Removal
        ensures { result ≡ removal v self }
    {
        let rest = self.others(v);
        let before = self.entries().len() as u8;
        let count = before - rest.len;
        Removal { queue: rest, count }
    }

    // The entries that are not for v, in their order.
    fn others(&self, v: u8) -> Queue
        ensures { result ≡ holding (others v (entries self.now)) (cleared v self.now.counts) }
    {
        let entries = self.entries();
        let mut items = [0; 16];
        let mut n: usize = 0;
        for &entry in entries {
            if entry != v {
                items[n] = entry;
                n += 1;
            }
        }
        Queue {
            items,
            len: n as u8,
            counts: self.with_count(v, 0),
        }
    }

    // How many entries the queue counts for v (T10).
    fn count(&self, v: u8) -> u8
        ensures { result ≡ get_or self.now.counts v 0 }
    {
        places::at(&self.counts, v as usize, 0)
    }

    // The counts, with n for v (T10); a number past the last VM has no count.
    fn with_count(&self, v: u8, n: u8) -> [u8; 8]
        ensures { result ≡ set self.now.counts v n }
    {
        let mut counts = self.counts;
        let i = v as usize;
        if i < 8 {
            counts[i] = n;
        }
        counts
    }

    // W5: whether the places past the entries hold zero.
    pub fn padded(&self) -> bool
        ensures { result ≡ padded_of self.now }
    {
        let past = &self.items[self.entries().len()..];
        let mut padded = true;
        for &item in past {
            padded &= item == 0;
        }
        padded
    }

    // W13: whether the counts are those of the entries.
    pub fn counted(&self) -> bool
        ensures { result ≡ counted_of self.now }
    {
        self.counts == counts_of(self.entries())
    }
}

// How many of some entries are each VM's (T10): none, and one more for each of them.
fn counts_of(entries: &[u8]) -> [u8; 8]
    requires { length entries.now ≤ 16 }
    ensures { Counted result entries.now }
{
    let mut counts = [0u8; 8];
    for &v in entries {
        let i = v as usize;
        if i < 8 {
            counts[i] = counts[i].wrapping_add(1);
        }
    }
    counts
}
