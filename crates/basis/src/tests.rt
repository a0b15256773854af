// Tests joined with no branch between them.
ghost use Rattle.std.specs.Prelude.{◌≡◌};
ghost use Rattle.basis.specs.Choice.{both, pick};

pub fn both(a: bool, b: bool) -> bool
    ensures { result ≡ both a b }
{
    if a { b } else { false }
}

// A test as a number, 0 where it is passed, so that a loop joins many of them with no exit.
pub fn fault(passed: bool) -> u8
    ensures { result ≡ pick passed 0 1 }
{
    if passed { 0 } else { 1 }
}
