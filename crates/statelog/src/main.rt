// Prints the run of events.bin on config.bin: for each event its line and the whole state (N9).
// Rules that its run in the gate tries: X2, P1, N9.
#![tactic(auto)]

fn main(rt: HostRuntime) {
    console::run_files(&rt, true);
}
