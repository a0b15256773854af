// Files, and runs printed to standard output.
#![tactic(auto)]

ghost use Rattle.io.specs.Counts.{IsPrefixLen};
ghost use Rattle.std.specs.Prelude.{◌≡◌, IfNone, IfSome};

use std::fs::File;
use std::os::fd::AsRawFd;

// The front of a file, as much as the buffer takes; nothing of one that does not open or cannot be read (N8).
pub fn read_file(rt: &HostRuntime, path: &[u8], buf: &mut [u8]) -> usize
    ensures { IsPrefixLen result buf.new }
{
    read_opened(rt, path, buf).unwrap_or(0)
}

// The same, and None of one that does not open, with the buffer as it was: whether it is there is told apart (N13). A path that is no text names no file.
pub fn read_opened(rt: &HostRuntime, path: &[u8], buf: &mut [u8]) -> Option<usize>
    ensures front { IfSome result (λ n. IsPrefixLen n buf.new) }
    ensures kept { IfNone result (buf.new ≡ buf.old) }
{
    let name = str::from_utf8(path).ok()?;
    let file = File::open(rt, name).ok()?;
    Some(io::read_full(file.as_raw_fd(), buf))
}

// Prints the run of the log `events.bin` on the image `config.bin`, both in the current folder (N1). At most 4,096 bytes of the
// image and 65,536 of the log are read, which is more than decides: 1,039 of any image, 60,001 of any log.
pub fn run_files(rt: &HostRuntime, states: bool) {
    let mut image = io::buffer();
    let mut log = io::large_buffer();
    let mut out = io::large_buffer();
    let m = read_file(rt, b"config.bin", &mut image);
    let n = read_file(rt, b"events.bin", &mut log);
    let _ = print_run(&image[..m], &log[..n], states, &mut out);
}

// Standard output cannot be written (N12).
#[derive(Clone, Copy, PartialEq, Eq, Debug)]
pub struct Unwritable;

// Prints a run.
pub fn print_run(image: &[u8], log: &[u8], states: bool, out: &mut [u8]) -> Result<(), Unwritable> {
    let mut place = replay::begin(image, log);
    for _ in 0..60002 {
        let turn = replay::fill(out, log, states, place);
        print(&out[..turn.used])?;
        place = turn.place;
        if replay::over(place.stage) {
            break;
        }
    }
    Ok(())
}

// Prints a case (N10): the run with its states, the image written again where it was accepted, and a dot.
pub fn print_case(image: &[u8], log: &[u8], out: &mut [u8]) -> Result<(), Unwritable> {
    print_run(image, log, true, out)?;
    print_again(image, out)?;
    print(b".\n")
}

// Prints an image that is accepted, written again from its configuration (N10). A buffer shorter than 2,080 bytes has no room for it.
fn print_again(image: &[u8], out: &mut [u8]) -> Result<(), Unwritable> {
    let Ok(config) = image_reader::read(image) else {
        return Ok(());
    };
    if out.len() < 2080 {
        return Ok(());
    }
    let mut again: [u8; 1036] = [0; 1036];
    let Ok(size) = image_writer::write(&config, &mut again) else {
        return Ok(());
    };
    if 1036 < size {
        return Ok(());
    }
    let n = lines::put_image(out, &again[..size]);
    print(&out[..n])
}

fn print(bytes: &[u8]) -> Result<(), Unwritable> {
    if io::write_all(1, bytes) {
        Ok(())
    } else {
        Err(Unwritable)
    }
}
