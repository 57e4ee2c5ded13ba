// The lister: reads a sheet from standard input and writes its listing, or why it has none. The longest sheet has 24,574 bytes, so one that fills
// the buffer has a wrong length.
#![tactic(auto)]

// Kept: each program has its own buffers, of fixed sizes, so each has its own `main`.
fn main() {
    let mut sheet = [0u8; 24576];
    let got = io::read_full(0, &mut sheet);
    let mut text = [0u8; listing::MOST];
    telling::write_listing(&sheet[..got], &mut text);
}
