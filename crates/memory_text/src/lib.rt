// The window of a run as text (N26 to N28).
#![tactic(auto)]

mod rows;
mod run;

ghost use Rattle.std.specs.Prelude.{◌≤◌, length};
ghost use Rattle.memory_text.specs.Memory.{shown_in};
ghost use Rattle.text.specs.Puts.{Puts};

use text::Page;

// The most bytes that are put: 512 lines of 81.
const ROOM: usize = 41472;

// Puts the window as the run of the log leaves it, from the buffer's front; nothing where there is no run (N28).
// A buffer shorter than ROOM takes nothing.
pub fn put(b: &mut [u8], image: &[u8], log: &[u8], memory: &[u8]) -> usize
    ensures { Puts (shown_in (length b.old) image.now log.now memory.now) b.old 0 b.new result × (result ≤ length b.old) }
{
    if b.len() < ROOM {
        return 0;
    }
    let Ok(config) = image_reader::read(image) else {
        return 0;
    };
    if events::LONGEST < log.len() {
        return 0;
    }
    let mut m = run::filled(memory);
    run::run(config, log, &mut m);
    let mut page = Page { bytes: b, used: 0 };
    rows::put_rows(&mut page, &m);
    page.used
}
