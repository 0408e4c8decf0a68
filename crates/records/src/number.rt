// Big-endian numbers and their bytes.
ghost use Rattle.std.specs.Prelude.{◌≡◌, ◌+◌, ◌%◌};
ghost use Rattle.records.specs.Bytes.{byte, number2, number4};

// The byte k places after a place; past the end there is none, and it counts as 0.
pub fn byte_after(s: &[u8], at: usize, k: usize) -> u8
    ensures { result ≡ byte s.now (at + k) }
{
    s.get(at.saturating_add(k)).copied().unwrap_or(0)
}

// The number that the two bytes from a place on stand for; and the four.
pub fn number2(s: &[u8], at: usize) -> u32
    ensures { result ≡ number2 s.now at }
{
    let bytes = [byte_after(s, at, 0), byte_after(s, at, 1)];
    u32::from(u16::from_be_bytes(bytes))
}

pub fn number4(s: &[u8], at: usize) -> u32
    ensures { result ≡ number4 s.now at }
{
    let bytes = [
        byte_after(s, at, 0),
        byte_after(s, at, 1),
        byte_after(s, at, 2),
        byte_after(s, at, 3),
    ];
    u32::from_be_bytes(bytes)
}

// The lowest byte.
// stays (promise): `cabinet_state::cabinet_of` reads a byte of any word (`small`, by `%`), where `u8::try_from` would refuse.
pub fn low_byte(v: u32) -> u8
    ensures { result ≡ v % 256 }
{
    (v % 256) as u8
}
