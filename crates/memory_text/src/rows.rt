// The rows of a window as text (N27).
ghost use Rattle.std.specs.Prelude.{◌<◌, length, ◌≡◌};
ghost use Rattle.memory_text.specs.Memory.{is_blank, row_line, row_text, window_text};
ghost use Rattle.text.specs.Adds.{Adds, Room};

use text::Page;
use window::Window;

// All 512 rows, in the order of their addresses.
pub fn put_rows(page: &mut Page, m: &[u8])
    requires { (length m.now ≡ 16384) × Room 41472 page.old }
    ensures { Adds (window_text m.now) 41472 page.old page.new }
{
    for k in 0..512 {
        put_row(page, m, k);
    }
}

// One row; nothing where it is all zero.
fn put_row(page: &mut Page, m: &[u8], k: usize)
    requires { (length m.now ≡ 16384) × (k < 512) × Room 81 page.old }
    ensures { Adds (row_text m.now k) 81 page.old page.new }
{
    let first = 32 * k;
    let row = &m[first..first + 32];
    if !is_blank(row) {
        put_row_line(page, Window::BASE + first as u32, row);
    }
}

// A row that is all zero.
fn is_blank(row: &[u8]) -> bool
    requires { length row.now ≡ 32 }
    ensures { result ≡ is_blank row.now }
{
    for x in row {
        if *x != 0 {
            return false;
        }
    }
    true
}

// The line of a row: `memory`, the address of its first byte, its bytes.
fn put_row_line(page: &mut Page, address: u32, row: &[u8])
    requires { (length row.now ≡ 32) × Room 81 page.old }
    ensures { Adds (row_line address row.now) 81 page.old page.new }
{
    page.put_word(b"memory ");
    page.put_address(address, b' ');
    lines::put_bytes(page, row);
    page.put_byte(b'\n');
}
