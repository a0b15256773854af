// Bytes as text, two hexadecimal digits each, and the line `image`.
ghost use Rattle.std.specs.Prelude.{◌*◌, ◌≤◌, length};
ghost use Rattle.lines.specs.Text.{bytes_text, image_text};
ghost use Rattle.text.specs.Adds.{Adds, Room};
ghost use Rattle.text.specs.Puts.{Puts};

use text::Page;

// N10.
pub fn put_image(b: &mut [u8], bytes: &[u8]) -> usize
    requires { (length bytes.now ≤ 1036) × (2080 ≤ length b.old) }
    ensures { Puts (image_text bytes.now) b.old 0 b.new result × (result ≤ 2080) }
{
    let mut page = Page { bytes: b, used: 0 };
    page.put_word(b"image ");
    put_bytes(&mut page, bytes);
    page.put_byte(b'\n');
    page.used
}

// N10, N27.
pub fn put_bytes(page: &mut Page, bytes: &[u8])
    requires { Room (length bytes.now * 2) page.old }
    ensures { Adds (bytes_text bytes.now (length bytes.now)) (length bytes.now * 2) page.old page.new }
{
    for byte in bytes {
        page.put_hex_byte(*byte);
    }
}
