// A line of output, made byte by byte. The longest has 70 bytes; what does not fit is left out.
ghost use Rattle.std.specs.Prelude.{◌≤◌};

use streams::{Failed, write_output};
use text::Writer;

const ROOM: usize = 80;

const DIGITS: [u8; 16] = *b"0123456789abcdef";

#[derive(Clone, Copy)]
pub(crate) struct Line {
    text: [u8; ROOM],
    used: usize,
    ghost within: { used ≤ 80 },
}

impl Line {
    // A line with its first byte.
    pub(crate) fn new(first: u8) -> Line {
        Line {
            text: [0u8; ROOM],
            used: 0,
        }
        .byte(first)
    }

    pub(crate) fn byte(mut self, b: u8) -> Line {
        let at = self.used;
        let mut w = Writer {
            out: &mut self.text,
            at,
        };
        w.byte(b);
        let end = w.at;
        self.used = end.min(ROOM);
        self
    }

    // A space and a number in decimal.
    pub(crate) fn number(mut self, v: u32) -> Line {
        let at = self.used;
        let mut w = Writer {
            out: &mut self.text,
            at,
        };
        w.field(v);
        let end = w.at;
        self.used = end.min(ROOM);
        self
    }

    // A byte as two hexadecimal digits.
    pub(crate) fn hex(self, b: u8) -> Line {
        self.byte(DIGITS[usize::from(b / 16)])
            .byte(DIGITS[usize::from(b % 16)])
    }

    // Prints the line and its end.
    pub(crate) fn print(self, rt: &HostRuntime) -> Result<(), Failed> {
        let ended = self.byte(b'\n');
        write_output(rt, &ended.text[..ended.used])
    }
}
