// A lent buffer that text is put into, one piece behind the other.
ghost use Rattle.std.specs.Prelude.{◌%◌, ◌+◌, ◌/◌, ◌<◌, ◌≤◌, length, [], ◌++◌, ◌∷◌, ◌≡◌};
ghost use Rattle.text.specs.Adds.{Adds, Room};
ghost use Rattle.text.specs.Digits.{decimal, hex8, hex_byte};
ghost use Rattle.text.specs.Pairs.{pair_at};

use crate::number;

// The buffer, and how many of its bytes are used: the next text goes behind these.
pub struct Page<'a> {
    pub bytes: &'a mut [u8],
    pub used: usize,
}

impl Drop for Page<'_> {
    // The buffer goes back as it is.
    fn drop(self)
        ensures { self.exit.0.now ≡ self.entry.bytes.now }
    {
        let Page { bytes: _, used: _ } = self;
    }
}

impl Page<'_> {
    #[inline(always)]
    pub fn put_byte(&mut self, x: u8)
        requires { Room 1 self.old }
        ensures { Adds (x ∷ []) 1 self.old self.new }
    {
        self.bytes[self.used] = x;
        self.used += 1;
    }

    // The bytes of a word.
    #[inline(always)]
    pub fn put_word(&mut self, s: &[u8])
        requires { Room (length s.now) self.old }
        ensures { Adds s.now (length s.now) self.old self.new }
    {
        let end = self.used + s.len();
        self.bytes[self.used..end].copy_from_slice(s);
        self.used = end;
    }

    // Two digits from the table.
    #[inline(always)]
    fn put_pair(&mut self, x: usize)
        requires { (x < 356) × Room 2 self.old }
        ensures { Adds (pair_at x) 2 self.old self.new }
    {
        self.used = number::put_pair(self.bytes, self.used, x);
    }

    // A number in decimal, with no zero in front.
    #[inline(always)]
    pub fn put_decimal(&mut self, n: u32)
        requires { Room 10 self.old }
        ensures { Adds (decimal n) 10 self.old self.new }
    {
        self.used = number::put_decimal(self.bytes, self.used, n);
    }

    // An address as eight hexadecimal digits; most that are printed are 0.
    #[inline(always)]
    pub fn put_hex8(&mut self, n: u32)
        requires { Room 8 self.old }
        ensures { Adds (hex8 n) 8 self.old self.new }
    {
        if n == 0 {
            self.put_word(b"00000000");
            return;
        }
        self.put_upper(n);
        self.put_pair((n / 256 % 256) as usize);
        self.put_pair((n % 256) as usize);
    }

    // The upper four of eight hexadecimal digits; few numbers that are printed have others than zeros there.
    #[inline(always)]
    fn put_upper(&mut self, n: u32)
        requires { Room 4 self.old }
        ensures { Adds (pair_at (n / 16777216) ++ pair_at (n / 65536 % 256)) 4 self.old self.new }
    {
        if n < 65536 {
            self.put_word(b"0000");
            return;
        }
        self.put_pair((n / 16777216) as usize);
        self.put_pair((n / 65536 % 256) as usize);
    }

    // A byte as two hexadecimal digits.
    #[inline(always)]
    pub fn put_hex_byte(&mut self, n: u8)
        requires { Room 2 self.old }
        ensures { Adds (hex_byte n) 2 self.old self.new }
    {
        self.put_pair(n as usize);
    }

    // A number in decimal and the byte behind it; most have one digit.
    #[inline(always)]
    pub fn put_number(&mut self, n: u32, after: u8)
        requires { Room 11 self.old }
        ensures { Adds (decimal n ++ (after ∷ [])) 11 self.old self.new }
    {
        if n < 10 {
            self.put_mark(48 + n as u8, after);
            return;
        }
        self.put_decimal(n);
        self.put_byte(after);
    }

    // An address as eight hexadecimal digits and the byte behind it.
    #[inline(always)]
    pub fn put_address(&mut self, n: u32, after: u8)
        requires { Room 9 self.old }
        ensures { Adds (hex8 n ++ (after ∷ [])) 9 self.old self.new }
    {
        self.put_hex8(n);
        self.put_byte(after);
    }

    // One byte, as the `-` of N4, and the byte behind it.
    #[inline(always)]
    pub fn put_mark(&mut self, x: u8, after: u8)
        requires { Room 2 self.old }
        ensures { Adds (x ∷ after ∷ []) 2 self.old self.new }
    {
        self.put_byte(x);
        self.put_byte(after);
    }
}
