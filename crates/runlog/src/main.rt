// Prints the run of events.bin on config.bin: a line for each event (G1, N1 to N8).
// Rules that its run in the gate tries: X1, X2, P2 to P5, N1 to N4.
#![tactic(auto)]

fn main(rt: HostRuntime) {
    console::run_files(&rt, false);
}
