// Digits stored in a buffer, from a place on (N3). Each function answers the place behind them: a page hands its place over by value, so that it need not lie in memory.
ghost use Rattle.std.specs.Prelude.{◌+◌, ◌<◌, ◌≤◌, length};
ghost use Rattle.text.specs.Digits.{decimal, digits};
ghost use Rattle.text.specs.Pairs.{pair_at};
ghost use Rattle.text.specs.Puts.{Puts};

// Two digits from the table; both are read before the first is stored, so that they can go as one.
pub(crate) fn put_pair(b: &mut [u8], at: usize, x: usize) -> usize
    requires { (x < 356) × (at + 2 ≤ length b.old) }
    ensures { Puts (pair_at x) b.old at b.new result }
{
    let t = crate::table();
    let first = t[x * 2];
    let second = t[x * 2 + 1];
    b[at] = first;
    b[at + 1] = second;
    at + 2
}

// A number in decimal, with no zero in front: four digits at a time.
pub(crate) fn put_decimal(b: &mut [u8], at: usize, n: u32) -> usize
    requires { at + 10 ≤ length b.old }
    ensures { Puts (decimal n) b.old at b.new result }
{
    if n < 10000 {
        return put_few(b, at, n);
    }
    if n < 100000000 {
        let rest = put_few(b, at, n / 10000);
        return put_four(b, rest, n % 10000);
    }
    let middle = put_few(b, at, n / 100000000);
    let rest = put_four(b, middle, n / 10000 % 10000);
    put_four(b, rest, n % 10000)
}

// The same of a number below 10,000.
fn put_few(b: &mut [u8], at: usize, n: u32) -> usize
    requires { (n < 10000) × (at + 4 ≤ length b.old) }
    ensures { Puts (decimal n) b.old at b.new result }
{
    if n < 10 {
        b[at] = 48 + n as u8;
        return at + 1;
    }
    if n < 100 {
        return put_pair(b, at, 256 + n as usize);
    }
    if n < 1000 {
        b[at] = 48 + (n / 100) as u8;
        return put_pair(b, at + 1, 256 + (n % 100) as usize);
    }
    let second = put_pair(b, at, 256 + (n / 100) as usize);
    put_pair(b, second, 256 + (n % 100) as usize)
}

// Four digits of a number that has more in front of them.
fn put_four(b: &mut [u8], at: usize, n: u32) -> usize
    requires { (n < 10000) × (at + 4 ≤ length b.old) }
    ensures { Puts (digits 10 4 n) b.old at b.new result }
{
    let rest = put_pair(b, at, 256 + (n / 100) as usize);
    put_pair(b, rest, 256 + (n % 100) as usize)
}
