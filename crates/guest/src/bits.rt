// Pseudo-interrupts as bits of a number: to find the one that is due, to add one, to take one out.
ghost use Rattle.std.specs.Prelude.{◌≡◌, ◌^◌, ◌<◌};
ghost use Rattle.basis.specs.Bits.{bit};
ghost use Rattle.guest.specs.Bits.{clear_bit, set_bit};
ghost use Rattle.guest.specs.Deliver.{due};

use crate::Status;

// D11, K7: from 31 down to 0, the first that is set in both fields, or none. K7 fixes this form: a loop that yields by `break`.
pub fn due(status: Status) -> Option<u8>
    ensures { result ≡ due status }
{
    let mut n: u8 = 31;
    loop {
        if has_bit(status.pending, n) && has_bit(status.enabled, n) {
            break Some(n);
        }
        if n == 0 {
            break None;
        }
        n -= 1;
    }
}

fn has_bit(x: u32, n: u8) -> bool
    requires { n < 32 }
    ensures { result ≡ bit n x }
{
    (x >> n) % 2 == 1
}

// 2^n.
fn power(n: u8) -> u32
    requires { n < 32 }
    ensures { result ≡ 2 ^ n }
{
    1 << n
}

#[tactic(auto, using(crate::proofs::Laws::or_sets))]
pub fn with_bit(x: u32, n: u8) -> u32
    requires { n < 32 }
    ensures { result ≡ set_bit n x }
{
    x | power(n)
}

#[tactic(auto, using(crate::proofs::Laws::sub_clears))]
pub fn without_bit(x: u32, n: u8) -> u32
    requires { n < 32 }
    ensures { result ≡ clear_bit n x }
{
    x - (x & power(n))
}
