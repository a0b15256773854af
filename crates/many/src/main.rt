// Runs the cases that come on standard input. A case is the image's length and the log's length, two bytes each with the
// low byte first; the image; the log. What is printed for it: what statelog prints, the line `image` where the image was
// accepted, and a dot. Input that ends within a case is told by the line `torn`.
// Rules that its run in the gate tries: N5, N7, N10, N11, and C7, since what it has to print was written by the twin.
#![tactic(auto)]

fn main() {
    let mut image = io::large_buffer();
    let mut log = io::large_buffer();
    let mut out = io::large_buffer();
    for _ in 0..u64::MAX {
        if one(&mut image, &mut log, &mut out).is_none() {
            return;
        }
    }
}

// One case (N10); None where there is none, or nothing more can be done (N11, N12).
fn one(image: &mut [u8], log: &mut [u8], out: &mut [u8]) -> Option<()> {
    let mut head = [0; 4];
    let got = io::read_full(0, &mut head);
    if got == 0 {
        return None;
    }
    if got < 4 {
        return torn();
    }
    let [a, b, c, d] = head;
    let m = u16::from_le_bytes([a, b]) as usize;
    let n = u16::from_le_bytes([c, d]) as usize;
    if image.len() < m || log.len() < n {
        return None;
    }
    if io::read_full(0, &mut image[..m]) < m || io::read_full(0, &mut log[..n]) < n {
        return torn();
    }
    console::print_case(&image[..m], &log[..n], out).ok()
}

// N11.
fn torn() -> Option<()> {
    io::write_all(1, b"torn\n");
    None
}
