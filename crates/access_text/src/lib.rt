// The answers to access queries as text (N22 to N25).
#![tactic(auto)]

ghost use Rattle.std.specs.Prelude.{◌+◌, ◌/◌, ◌≤◌, length, ◌≡◌};
ghost use Rattle.access_text.specs.Queries.{answer_at, answers_text, rest_text, shown_in, word_for};
ghost use Rattle.config.specs.Sizes.{legal};
ghost use Rattle.text.specs.Adds.{Adds, Room};
ghost use Rattle.text.specs.Puts.{Puts};

use basis::numbers;
use basis::tests::both;
use config::Config;
use text::Page;

// The most bytes that are printed, and some more: 6,000 lines of four bytes, and one that tells of a cut.
const ROOM: usize = 24064;

// The most bytes of queries (N25).
const LONGEST: usize = 60000;

// Puts the answers to all queries, from the buffer's front (N22 to N25). A buffer shorter than ROOM takes nothing.
pub fn put(b: &mut [u8], image: &[u8], queries: &[u8]) -> usize
    ensures { Puts (shown_in (length b.old) image.now queries.now) b.old 0 b.new result × (result ≤ length b.old) }
{
    if b.len() < ROOM {
        return 0;
    }
    let mut page = Page { bytes: b, used: 0 };
    let config = match image_reader::read(image) {
        Ok(config) => config,
        Err(r) => {
            lines::put_refused(&mut page, r.fault.number(), r.offset as u32);
            return page.used;
        }
    };
    let size = queries.len();
    if LONGEST < size {
        page.put_word(b"long\n");
        return page.used;
    }
    put_answers(&mut page, &config, queries);
    put_rest(&mut page, size as u32);
    page.used
}

// The answers to the queries that are whole (N23). Whether the configuration is legal is asked once.
fn put_answers(page: &mut Page, config: &Config, queries: &[u8])
    requires { (length queries.now ≤ 60000) × Room 24000 page.old }
    ensures { Adds (answers_text config.now queries.now (length queries.now / 10)) 24000 page.old page.new }
{
    let tested = config.legal();
    for k in 0..queries.len() / 10 {
        let yes = answer(config, tested, queries, k * 10);
        put_word_for(page, yes);
    }
}

// The answer to the query at a place (N22, H10), for a configuration that was tested.
fn answer(config: &Config, tested: bool, queries: &[u8], at: usize) -> bool
    requires { (at + 10 ≤ length queries.now) × (tested ≡ legal config.now) }
    ensures { result ≡ answer_at config.now queries.now at }
{
    let v = queries[at];
    let way = queries[at + 1];
    let known = both(tested, both(v < config.count, regions::is_known(way)));
    if known {
        let address = numbers::word_inside(queries, at + 2);
        let size = numbers::word_inside(queries, at + 6);
        return grants::allows(&config.regions, v, address, size, way);
    }
    false
}

// N23.
fn put_word_for(page: &mut Page, yes: bool)
    requires { Room 4 page.old }
    ensures { Adds (word_for yes) 4 page.old page.new }
{
    if yes {
        page.put_word(b"yes\n");
    } else {
        page.put_word(b"no\n");
    }
}

// N24.
fn put_rest(page: &mut Page, size: u32)
    requires { Room 64 page.old }
    ensures { Adds (rest_text size) 64 page.old page.new }
{
    if size % 10 != 0 {
        lines::put_cut(page, size / 10 + 1);
    }
}
