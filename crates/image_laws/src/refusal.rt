// Why a round trip gives nothing.
ghost use Rattle.std.specs.Prelude.{◌≡◌};
ghost use Rattle.image_laws.specs.declared.refusal.Refusal.TheVariants.{Unread, Unwritten};

use image_reader::{Fault, Refused};

// The reader's fault, or the writer's refusal.
#[derive(Clone, Copy, PartialEq, Eq, Debug)]
pub enum Refusal {
    Unread(Fault),
    Unwritten(image_writer::Unwritten),
}

impl From<Refused> for Refusal {
    ghost from_gives = { λ r e. e ≡ Unread r.fault };

    fn from(r: Refused) -> Refusal {
        Refusal::Unread(r.fault)
    }
}

impl From<image_writer::Unwritten> for Refusal {
    ghost from_gives = { λ u e. e ≡ Unwritten u };

    fn from(u: image_writer::Unwritten) -> Refusal {
        Refusal::Unwritten(u)
    }
}
