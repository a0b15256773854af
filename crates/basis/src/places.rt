// What stands at a place of a slice, and a store there; past the end 0, and no store.
ghost use Rattle.std.specs.Prelude.{get_or, set, ◌≡◌};

// What stands at a place, and `or` past the end.
pub fn at<T: Copy>(s: &[T], i: usize, or: T) -> T
    ensures { result ≡ get_or s.now i or }
{
    if i < s.len() { s[i] } else { or }
}

pub fn put_byte(b: &mut [u8], i: usize, x: u8)
    ensures { b.new ≡ set b.old i x }
{
    if i < b.len() {
        b[i] = x;
    }
}
