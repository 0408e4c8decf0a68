// A writer of text into a lent buffer. It writes a text where it stands, and stands after it then; what would stand past the buffer's end is left out, so that a
// buffer of no bytes serves to measure a text.
ghost use Rattle.std.specs.Prelude.{◌≤◌};
ghost use Rattle.text.specs.Writing.{highest};

// The place where it stands is the text's length, if it began at the front.
#[derive(Drop)]
pub struct Writer<'a> {
    pub out: &'a mut [u8],
    pub at: usize,
    ghost is_place: { at ≤ highest },
}
