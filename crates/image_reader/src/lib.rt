// The reader of the configuration's image (I7 to I10).
#![tactic(auto)]

mod fault;
mod reader;
mod records;

ghost use Rattle.std.specs.Prelude.{◌≡◌};
ghost use Rattle.image_reader.specs.Reader.{read_image, reading_of};

use basis::places;
use config::Config;
pub use fault::{Fault, Refused};
pub use reader::no_config;

// Reads an image of any length (I1 to I10, I13).
pub fn read(s: &[u8]) -> Result<Config, Refused>
    ensures { reading_of result ≡ read_image s.now }
{
    records::check_core(s).map_err(|fault| fault.at(0))?;
    let count = places::at(s, 1, 0);
    let room = places::at(s, 2, 0);
    reader::read_vms(s, reader::begun(count, room))
}
