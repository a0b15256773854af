// The window (E14): memory that a host lends for a Copy; what a Copy asks for (E13), and the copying itself (D36).
#![tactic(auto)]

ghost use Rattle.std.specs.Prelude.{ℕ, ◌<◌, ◌≤◌, get_or, length, take, true, ◌≡◌};
ghost use Rattle.window.specs.Pieces.{copied_all, extents, fits, inside, moved, no_extent, window_of};

// One piece of a Copy (E13).
#[repr(C)]
#[derive(Clone, Copy, Default)]
pub struct Extent {
    pub source: u32,
    pub destination: u32,
    pub length: u32,
}

// What a Copy asks for (E13): how many of the eight extents are in use, and where its VM goes on.
#[repr(C)]
#[derive(Clone, Copy)]
pub struct Pieces {
    pub count: u8,
    pub next: u32,
    pub extents: [Extent; 8],
}

// What the core sees of the memory (D37): where it begins, and how many bytes it has.
#[repr(C)]
#[derive(Clone, Copy)]
pub struct Window {
    pub base: u32,
    pub size: usize,
}

impl Extent {
    // S10.
    pub const LONGEST: u32 = 256;
}

impl Pieces {
    // S10.
    pub const MOST: u8 = 8;

    pub fn extents(self) -> [Extent; 8]
        ensures { result ≡ extents self }
    {
        self.extents
    }
}

impl Window {
    // L6: where the window of a log begins, and its size.
    pub const BASE: u32 = 0x40000000;

    pub const SIZE: usize = 16384;

    // Whether n bytes from an address on lie in the window (D32). No sum wraps.
    pub fn inside(self, address: u32, n: u32) -> bool
        ensures { result ≡ inside self address n }
    {
        if address < self.base {
            return false;
        }
        let from = (address - self.base) as usize;
        from <= self.size && n as usize <= self.size - from
    }
}

// The first n extents, in their order (D36): a building block, for extents that were checked.
pub fn copy_all(m: &mut [u8], base: u32, xs: [Extent; 8], n: usize)
    requires { (n ≤ 8) × ((k : ℕ) → k < n → fits (window_of base m.old) (get_or xs k no_extent) ≡ true) }
    ensures { m.new ≡ copied_all base (take n xs) m.old }
{
    for x in &xs[..n] {
        copy_extent(m, base, x);
    }
}

// One extent, its bytes as they stood before, since the two ranges may overlap; one of length 0 may have any addresses (D34). One that is
// copied onto itself changes nothing, and the library would go byte by byte.
fn copy_extent(m: &mut [u8], base: u32, x: &Extent)
    requires { fits (window_of base m.old) x.now ≡ true }
    ensures { m.new ≡ moved base x.now m.old }
{
    if x.length != 0 && x.source != x.destination {
        let from = (x.source - base) as usize;
        let to = (x.destination - base) as usize;
        m.copy_within(from..from + x.length as usize, to);
    }
}
