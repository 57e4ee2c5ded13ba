// Traces of several inputs, one after another, each preceded by its length in four bytes, high first: the example sheets (examples/sheets), a sheet
// of version 2, which is refused, a sheet without words, and one of 4,095 words drawn by the independent program. Its data are written by
// oracle/traces.sh, the text by the independent program.
#![tactic(auto)]

// The texts of the inputs one after another; an input that is cut short ends it.
fn all(bundle: &[u8], text: &mut [u8; tracing::MOST]) {
    let mut rest = bundle;
    while let Some((size, after)) = rest.split_first_chunk::<4>() {
        let n = u32::from_be_bytes(*size) as usize;
        let Some((input, left)) = after.split_at_checked(n) else {
            return;
        };
        tracing::write(input, text);
        rest = left;
    }
}

// Kept: each program has its own buffers, of fixed sizes, so each has its own `main`.
fn main() {
    let mut bundle = [0u8; 32768];
    let got = io::read_full(0, &mut bundle);
    let mut text = [0u8; tracing::MOST];
    all(&bundle[..got], &mut text);
}
