// The reader: a listing, or a text that an editor wrote by its rules (docs/LISTING.md), to a sheet in a lent buffer.
#![tactic(auto)]

ghost use Rattle.std.specs.Prelude.{◌≡◌, ◌++◌, ◌+◌, ◌*◌, ◌≤◌, ◌<◌, length};
ghost use Rattle.std.specs.Iterator.{YieldsFirstRef, item_count};
ghost use Rattle.text.specs.Fill.{Added};
ghost use Rattle.reasons.specs.Reasons.{first_of, check_numbers};
ghost use Rattle.reasons.specs.Output.{wrote};
ghost use Rattle.packing.specs.Packing.{InRange};
ghost use Rattle.grammar.specs.Grammar.{lines_of, word_in};
ghost use Rattle.grammar.specs.Scan.{leading};
ghost use Rattle.reading.specs.Reader.{in_line, head_rows, line_rows, lines_rows, header4, split4, word_by, packed_line, packed_lines, read_rows, read_of, AllFit};

use chip::Word;
use grammar::Head;
use reasons::{Reason, Refusal, refuse_if};

// The most words that a sheet can have.
const WORDS: usize = 4095;

// ---- lines

// Where the first line of a text ends: at its line feed, or with the text.
fn line_end(text: &[u8]) -> usize
    ensures { result ≡ leading in_line text.now }
{
    text.iter().take_while(|c| **c != b'\n').count()
}

// The lines of a text, one after another: each ends in a line feed, which the last may lack.
#[derive(Drop)]
struct Lines<'a>(&'a [u8]);

impl<'a> Iterator for Lines<'a> {
    type Item = &'a [u8];

    ghost next_gives = { YieldsFirstRef (λ s. lines_of s.0.now) };

    ghost remaining = { item_count (λ s. lines_of s.0.now) };

    fn next(&mut self) -> Option<&'a [u8]> {
        let text = self.0;
        if text.is_empty() {
            return None;
        }
        let end = line_end(text);
        self.0 = &text[text.len().min(end + 1)..];
        Some(&text[..end])
    }
}

// ---- reasons

// Reasons 4 and 5 of the first line.
// Kept: `sheet::check_opening` has these two rows of a header in bytes, which has zero bits besides.
fn check_first(head: Head) -> Result<(), Refusal>
    ensures { result ≡ first_of (head_rows (Some head)) }
{
    refuse_if(head.version != 1, Reason::Version, 0)?;
    refuse_if(
        (head.registers == 0) | (64 < head.registers),
        Reason::Header,
        0,
    )
}

// Reasons 15, 2, 17 and 9 of line k, a word's, in a sheet of n registers.
fn check_line(line: &[u8], n: u32, k: usize) -> Result<(), Refusal>
    ensures { result ≡ first_of (line_rows n k (word_in line.now)) }
{
    let w = grammar::read_word(line).ok_or(Refusal {
        reason: Reason::Text,
        place: k,
    })?;
    refuse_if(packing::too_large(w), Reason::Inputs, k)?;
    refuse_if(packing::left_idle(w), Reason::Idle, k)?;
    refuse_if(packing::names_from(n, w), Reason::Register, k)
}

// The words' lines in order: the first fault of the first line that has one. The line before them is line 0.
fn check_lines(text: &[u8], n: u32) -> Result<(), Refusal>
    ensures { result ≡ first_of (lines_rows n 1 (lines_of text.now)) }
{
    for (k, line) in Lines(text).enumerate() {
        check_line(line, n, k + 1)?;
    }
    Ok(())
}

// How many lines there are.
fn count_lines(text: &[u8]) -> usize
    ensures { result ≡ length (lines_of text.now) }
{
    Lines(text).count()
}

// ---- the sheet

// The four bytes of a header.
fn header(head: Head, words: u32) -> [u8; 4]
    requires { (head.version < 16) × (words < 4096) × (head.registers < 128) }
    ensures { result ≡ split4 (header4 head.version words head.registers) }
{
    (head.version * 0x1000_0000 + words * 0x1_0000 + head.registers * 0x200).to_be_bytes()
}

// The word of a line that was checked.
fn word_of(line: &[u8]) -> Word
    ensures { result ≡ word_by (word_in line.now) }
{
    grammar::read_word(line).unwrap_or_else(|| packing::fields(0))
}

// The six bytes of a line's word into a sheet at a place; where the sheet goes on.
fn put_word(line: &[u8], sheet: &mut [u8], at: usize) -> usize
    requires { InRange (word_by (word_in line.now)) × (at + 6 ≤ length sheet.old) }
    ensures { Added (packed_line line.now) at sheet.old result sheet.new }
{
    text::put(&packing::bytes(word_of(line)), sheet, at)
}

// The words of lines into a sheet after its header; where the sheet ends.
fn put_words(text: &[u8], sheet: &mut [u8]) -> usize
    requires { AllFit (lines_of text.now) × (4 + 6 * length (lines_of text.now) ≤ length sheet.old) }
    ensures { Added (packed_lines (lines_of text.now)) 4 sheet.old result sheet.new }
{
    let mut to: usize = 4;
    for line in Lines(text) {
        to = put_word(line, sheet, to);
    }
    to
}

// The header, and those words after it, into a sheet that has room for them; where the sheet ends.
fn put_sheet(text: &[u8], head: Head, words: u32, sheet: &mut [u8]) -> usize
    requires fits { AllFit (lines_of text.now) × (4 + 6 * length (lines_of text.now) ≤ length sheet.old) }
    requires small { (head.version < 16) × (words < 4096) × (head.registers < 128) }
    ensures { Added (split4 (header4 head.version words head.registers) ++ packed_lines (lines_of text.now)) 0 sheet.old result sheet.new }
{
    text::put(&header(head, words), sheet, 0);
    put_words(text, sheet)
}

// ---- the entry point

// The sheet that a text stands for, at the start of a lent buffer; how many bytes it has. 24,574 bytes always suffice.
pub fn read(text: &[u8], sheet: &mut [u8]) -> Result<usize, Refusal>
    ensures sheet_after { wrote result sheet.new ≡ read_of text.now sheet.old }
    ensures numbers { check_numbers result ≡ check_numbers (first_of (read_rows text.now (length sheet.old))) }
{
    let mut lines = Lines(text);
    let first = lines.next().unwrap_or(b"");
    let head = grammar::read_first(first).ok_or(Refusal {
        reason: Reason::Text,
        place: 0,
    })?;
    check_first(head)?;
    let rest = lines.0;
    check_lines(rest, head.registers)?;
    let words = count_lines(rest);
    refuse_if(WORDS < words, Reason::Count, 0)?;
    refuse_if(sheet.len() < 4 + 6 * words, Reason::Room, 0)?;
    Ok(put_sheet(rest, head, words as u32, sheet))
}
