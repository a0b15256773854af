// The text of a tick report: its lines put into a lent buffer, and the names of the logs (N13, N18, N21).
#![tactic(auto)]

mod line;

ghost use Rattle.std.specs.Prelude.{◌≤◌, length, ◌≡◌};
ghost use Rattle.tally_text.specs.Report.{log_name};
ghost use Rattle.tally_text.specs.Shown.{shown_in};
ghost use Rattle.text.specs.Puts.{Puts};

use tally::Tally;
use text::Page;

// The most bytes that a report has, and some more.
const ROOM: usize = 512;

// Puts the report of an image and the figures of its logs (N18, N21), from the buffer's front. A buffer shorter than ROOM takes nothing.
pub fn put(b: &mut [u8], image: &[u8], t: Tally) -> usize
    ensures { Puts (shown_in (length b.old) image.now t) b.old 0 b.new result × (result ≤ length b.old) }
{
    if b.len() < ROOM {
        return 0;
    }
    let mut page = Page { bytes: b, used: 0 };
    let config = match image_reader::read(image) {
        Ok(config) => config,
        Err(r) => {
            lines::put_refused(&mut page, r.fault.number(), r.offset as u32);
            return page.used;
        }
    };
    line::put_tally(&mut page, config.count, &t);
    page.used
}

// The name of a log's file (N13), for a number of at most two digits.
pub fn log_name(k: u8) -> [u8; 9]
    ensures { result ≡ log_name k }
{
    let mut name = *b"log00.bin";
    name[3] = b'0' + k / 10 % 10;
    name[4] = b'0' + k % 10;
    name
}
