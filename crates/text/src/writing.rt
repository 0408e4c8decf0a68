// What a writer writes.
ghost use Rattle.std.specs.Prelude.{◌≡◌, ◌∷◌, [], ◌++◌};
ghost use Rattle.text.specs.Text.{ascii, decimal, signed};
ghost use Rattle.text.specs.Writers.{Wrote};

use crate::Writer;

// No index is higher.
const HIGHEST: usize = usize::MAX;

impl<'a> Writer<'a> {
    // At the front of a buffer.
    pub fn new(out: &'a mut [u8]) -> Writer<'a>
        ensures same_buffer { result.out.ghost_name ≡ out.entry.ghost_name }
        ensures kept { result.out.now ≡ out.old }
        ensures front { result.at ≡ 0 }
    {
        Writer { out, at: 0 }
    }

    pub fn byte(&mut self, b: u8)
        ensures { Wrote self.old self.new (b ∷ []) }
    {
        if self.at < self.out.len() {
            self.out[self.at] = b;
        }
        if self.at < HIGHEST {
            self.at += 1;
        }
    }

    // A text that is already bytes.
    pub fn bytes(&mut self, bytes: &[u8])
        ensures { Wrote self.old self.new bytes.now }
    {
        for b in bytes {
            self.byte(*b);
        }
    }

    // A number in decimal.
    pub fn number(&mut self, v: u32)
        ensures { Wrote self.old self.new (decimal v) }
    {
        if v < 10 {
            return self.byte(b'0' + v as u8);
        }
        self.number(v / 10);
        self.byte(b'0' + (v % 10) as u8)
    }

    // A number in two's complement, with its sign.
    fn signed(&mut self, v: u32)
        ensures { Wrote self.old self.new (signed v) }
    {
        if v < 0x8000_0000 {
            return self.number(v);
        }
        self.byte(b'-');
        self.number(0xFFFF_FFFF - v + 1)
    }

    // A space and a number.
    pub fn field(&mut self, v: u32)
        ensures { Wrote self.old self.new (ascii " " ++ decimal v) }
    {
        self.byte(b' ');
        self.number(v)
    }

    // A space and a number in two's complement.
    pub fn signed_field(&mut self, v: u32)
        ensures { Wrote self.old self.new (ascii " " ++ signed v) }
    {
        self.byte(b' ');
        self.signed(v)
    }
}
