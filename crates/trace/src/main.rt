// The trace program: reads a sheet and its registers from standard input, and writes a line for each execution and a last line. The largest
// valid input has 24,830 bytes, so one that fills the buffer has a wrong length.
#![tactic(auto)]

// Kept: each program has its own buffers, of fixed sizes, so each has its own `main`.
fn main() {
    let mut input = [0u8; 24832];
    let got = io::read_full(0, &mut input);
    let mut text = [0u8; tracing::MOST];
    tracing::write(&input[..got], &mut text);
}
