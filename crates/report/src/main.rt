// Prints the tick report of config.bin and of log00.bin to log15.bin: the figures of each VM, summed over the logs (N13 to N21).
// Rules that its run in the gate tries: X3, N18.
#![tactic(auto)]

ghost use Rattle.tally.specs.Counting.{OfLogs};

use tally::Tally;

fn main(rt: HostRuntime) {
    let mut image = io::buffer();
    let mut log = io::large_buffer();
    let m = console::read_file(&rt, b"config.bin", &mut image);
    let t = counted(&rt, &image[..m], &mut log);
    let n = tally_text::put(&mut log, &image[..m], t);
    io::write_all(1, &log[..n]);
}

// The figures of the logs in the current folder, up to the first that does not open (N13). No more of a log is read than decides (N20).
fn counted(rt: &HostRuntime, image: &[u8], log: &mut [u8]) -> Tally
    ensures { OfLogs image.now 16 result }
{
    let mut t = Tally::none();
    for k in 0..Tally::LOGS {
        let name = tally_text::log_name(k);
        let Some(n) = console::read_opened(rt, &name, log) else {
            return t;
        };
        t = t.with_log(image, &log[..n]);
    }
    t
}
