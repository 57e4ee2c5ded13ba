// The assembler: reads a listing, or a text that an editor wrote by its rules, from standard input and writes the sheet; or why there is none, to
// standard error. The longest listing has 425,903 bytes; a text with more blanks may be longer, and one that fills the buffer is refused.
#![tactic(auto)]

ghost use Rattle.std.specs.Prelude.{◌≡◌, length};

const ROOM: usize = 1048576;

// Room for a text. That `main` knows its length alone keeps the proof short.
fn room() -> [u8; ROOM]
    ensures { 1048576 ≡ length result }
{
    [0; ROOM]
}

// Kept: each program has its own buffers, of fixed sizes, so each has its own `main`.
fn main() {
    let mut text = room();
    let got = io::read_full(0, &mut text);
    let mut sheet = [0u8; 24574];
    telling::write_sheet(&text[..got], ROOM, &mut sheet);
}
