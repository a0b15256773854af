// Prints the run of events.bin on config.bin, over a window that begins with the bytes of memory.bin, and then that window (N26 to N28).
// Rules that its run in the gate tries: E13, L6, D31, D32, D34 to D36, N26, N27.
// At most 65,536 bytes of memory.bin are read, which is more than decides: 16,384.
#![tactic(auto)]

fn main(rt: HostRuntime) {
    let mut image = io::buffer();
    let mut log = io::large_buffer();
    let mut memory = io::large_buffer();
    let mut out = io::large_buffer();
    let m = console::read_file(&rt, b"config.bin", &mut image);
    let n = console::read_file(&rt, b"events.bin", &mut log);
    let k = console::read_file(&rt, b"memory.bin", &mut memory);
    if console::print_run(&image[..m], &log[..n], false, &mut out).is_ok() {
        let used = memory_text::put(&mut out, &image[..m], &log[..n], &memory[..k]);
        io::write_all(1, &out[..used]);
    }
}
