// Text in a lent buffer. A buffer that is too short takes the bytes that fit; all of them are counted.
ghost use Rattle.std.specs.Prelude.{◌≡◌, [], ◌∷◌, ◌+◌, ◌≤◌, ◌<◌, length};
ghost use Rattle.transcript.specs.Text.{decimal, Put};

// The text so far.
#[derive(Drop)]
pub(crate) struct Text<'a> {
    pub(crate) out: &'a mut [u8],
    // How many bytes it has.
    pub(crate) at: usize,
}

impl<'a> Text<'a> {
    fn put_byte(&mut self, byte: u8)
        requires { self.old.at < 18446744073709551615 }
        ensures put { Put self.old.at (byte ∷ []) 1 self.old.out.now self.new.out.now self.new.at }
        ensures same { self.new.out.ghost_name ≡ self.old.out.ghost_name }
    {
        if self.at < self.out.len() {
            self.out[self.at] = byte;
        }
        self.at += 1;
    }

    pub(crate) fn put(&mut self, text: &[u8])
        requires { self.old.at ≤ 1048576 }
        ensures put { Put self.old.at text.now (length text.now) self.old.out.now self.new.out.now self.new.at }
        ensures same { self.new.out.ghost_name ≡ self.old.out.ghost_name }
    {
        for byte in text {
            self.put_byte(*byte);
        }
    }

    // n in decimal digits.
    // Kept: digits by hand and no `write!`, which stops at a full buffer, when the bytes that do not fit are to be
    // counted too (`Put`).
    pub(crate) fn put_number(&mut self, n: usize)
        requires { self.old.at ≤ 1048576 }
        ensures put { Put self.old.at (decimal n) 20 self.old.out.now self.new.out.now self.new.at }
        ensures same { self.new.out.ghost_name ≡ self.old.out.ghost_name }
    {
        if 9 < n {
            self.put_number(n / 10);
        }
        self.put_byte(48 + (n % 10) as u8);
    }
}
