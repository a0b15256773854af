// Both round trips through an image, as code: read and write again, write and read again.
#![tactic(auto)]

mod refusal;

ghost use Rattle.std.specs.Prelude.{length, ◌≡◌};
ghost use Rattle.image_laws.specs.Returned.{read_again, written_again};
ghost use Rattle.image_laws.specs.Trips.{copy_answer, copy_buffer, returned};
ghost use Rattle.image_writer.specs.Writer.{buffer_after};

use config::Config;
pub use refusal::Refusal;

// Reads an image and writes what was read: the same bytes (C6).
pub fn rewrite(s: &[u8], b: &mut [u8]) -> Result<usize, Refusal>
    ensures { (written_again result ≡ copy_answer s.now (length b.old)) × (b.new ≡ copy_buffer s.now b.old) }
{
    let config = image_reader::read(s)?;
    let size = image_writer::write(&config, b)?;
    Ok(size)
}

// Writes a configuration and reads what was written: the same configuration (C6).
pub fn reread(c: &Config, b: &mut [u8]) -> Result<Config, Refusal>
    ensures { (read_again result ≡ returned c.now (length b.old)) × (b.new ≡ buffer_after c.now b.old) }
{
    config::typed(*c);
    let size = image_writer::write(c, b)?;
    let config = image_reader::read(&b[..size])?;
    Ok(config)
}
