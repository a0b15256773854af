// The writer of the configuration's image (I11, I12).
#![tactic(auto)]

mod writer;

ghost use Rattle.std.specs.Prelude.{◌*◌, ◌+◌, ◌≤◌, length, ◌≡◌};
ghost use Rattle.basis.specs.Buffer.{put_all};
ghost use Rattle.image_writer.specs.Refusals.{refusal_number};
ghost use Rattle.image_writer.specs.Writer.{answer_for, buffer_after, records_bytes, written_of};

use config::Config;

// Why no image is written (I11), each with its number.
#[derive(Clone, Copy, PartialEq, Eq, Debug)]
pub enum Unwritten {
    Short = 30, // the buffer is shorter than the image
    Illegal = 31, // the configuration does not keep the rules
}

impl Unwritten {
    pub fn number(self) -> u8
        ensures { result ≡ refusal_number self }
    {
        self as u8
    }
}

// Writes the image of a configuration to the front of a buffer, and gives its length; or leaves the buffer as it is (I11, I12).
pub fn write(c: &Config, b: &mut [u8]) -> Result<usize, Unwritten>
    ensures { (written_of result ≡ answer_for c.now (length b.old)) × (b.new ≡ buffer_after c.now b.old) }
{
    if !c.legal() {
        return Err(Unwritten::Illegal);
    }
    let size = writer::size(c);
    if b.len() < size {
        return Err(Unwritten::Short);
    }
    put_records(b, c);
    b[size - 1] = 4;
    Ok(size)
}

// All records but the last.
fn put_records(b: &mut [u8], c: &Config)
    requires { (c.now.count ≤ 8) × (c.now.regions.count ≤ 64) × (c.now.slots ≤ 64) × (3 + c.now.count * 9 + c.now.regions.count * 11 + c.now.slots * 4 ≤ length b.old) }
    ensures { b.new ≡ put_all b.old 0 (records_bytes c.now) }
{
    let held = 3 + c.count as usize * 9;
    let slots = held + c.regions.count as usize * 11;
    writer::put_core(b, c.count, c.room);
    writer::put_vms(b, c);
    writer::put_regions(b, held, &c.regions);
    writer::put_slots(b, slots, c);
}
