// Prints the answers to the access queries of queries.bin on config.bin: `yes` or `no` for each (N22 to N25).
// Rules that its run in the gate tries: H8 to H10, N22, N23, N24.
#![tactic(auto)]

fn main(rt: HostRuntime) {
    let mut image = io::buffer();
    let mut queries = io::large_buffer();
    let mut out = io::large_buffer();
    let m = console::read_file(&rt, b"config.bin", &mut image);
    let n = console::read_file(&rt, b"queries.bin", &mut queries);
    let used = access_text::put(&mut out, &image[..m], &queries[..n]);
    io::write_all(1, &out[..used]);
}
