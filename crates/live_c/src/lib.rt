// What a host in C or Rust links: the functions of `live`, exported under their names, each with the contract that it has there.
#![tactic(auto)]

ghost use Rattle.std.specs.Prelude.{◌≡◌};
ghost use Rattle.config.specs.Sizes.{access};
ghost use Rattle.live.specs.Host.{begun_from, inner_by, step_by};
ghost use Rattle.rig_core.specs.Events.{step_of};
ghost use Rattle.rig_core.specs.Memory.{copy_in, memory_after};

use change::Answer;
use config::Config;
use live::{Begun, Input};
use rig_core::{Core, Stepped};
use window::Pieces;

#[unsafe(no_mangle)]
pub extern "C" fn core_fresh(s: &[u8]) -> Begun
    ensures { result ≡ begun_from s.now }
{
    live::core_fresh(s)
}

#[unsafe(no_mangle)]
pub extern "C" fn core_step(c: Core, e: Input) -> Stepped
    ensures { result ≡ step_by c e }
{
    live::core_step(c, e)
}

#[unsafe(no_mangle)]
pub extern "C" fn core_live(c: &mut Core, e: Input) -> Answer
    ensures { (c.new ≡ (step_by c.old e).core) × (result ≡ (step_by c.old e).answer) }
{
    live::core_live(c, e)
}

#[unsafe(no_mangle)]
pub extern "C" fn core_inner(c: &mut Core, e: Input) -> Answer
    ensures { (c.new ≡ (inner_by c.old e).core) × (result ≡ (inner_by c.old e).answer) }
{
    live::core_inner(c, e)
}

#[unsafe(no_mangle)]
pub extern "C" fn core_copy(c: &mut Core, p: Pieces, m: &mut [u8], base: u32) -> Answer
    ensures { (c.new ≡ (step_of c.old (copy_in p base m.old)).core) × (result ≡ (step_of c.old (copy_in p base m.old)).answer) × (m.new ≡ memory_after c.old (copy_in p base m.old) m.old) }
{
    live::core_copy(c, p, m, base)
}

#[unsafe(no_mangle)]
pub extern "C" fn core_allows(config: Config, vm: u8, address: u32, length: u32, way: u8) -> bool
    ensures { result ≡ access config vm address length way }
{
    live::core_allows(config, vm, address, length, way)
}
