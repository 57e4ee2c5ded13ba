// The lister: a sheet as text that a person can read (docs/LISTING.md), into a lent buffer.
#![tactic(auto)]

ghost use Rattle.std.specs.Prelude.{◌≡◌, ◌+◌, ◌≤◌, ◌<◌, length};
ghost use Rattle.reasons.specs.Reasons.{first_of, check_numbers};
ghost use Rattle.packing.specs.Packing.{InRange};
ghost use Rattle.sheet.specs.Sheet.{declared_of, all_words, Ready};
ghost use Rattle.text.specs.Fill.{Added, Written};
ghost use Rattle.listing.specs.Lines.{numbers_of, named, switches_of, first_line, word_line, ended, word_lines, listing_of};
ghost use Rattle.reasons.specs.Output.{wrote};
ghost use Rattle.listing.specs.Lister.{list_rows, list_of};

use chip::Word;
use reasons::{Reason, Refusal, refuse_if};
use sheet::Which;

// The bytes of the longest listing: its first line, and 4,095 lines with every switch on.
pub const MOST: usize = 425903;

// The bytes of the six numbers of a word, each after its name, and of the first line.
const NUMBERS: usize = 42;

const FIRST: usize = 23;

// ---- lines

// The six numbers of a word, each after its name.
fn numbers(w: Word) -> [u8; NUMBERS]
    ensures { result ≡ numbers_of w }
{
    let mut line = *b"code=0 position=00 width=00 A=00 B=00 Y=00";
    text::put(&text::decimal::<1>(w.code as u64), &mut line, 5);
    text::put(&text::decimal::<2>(w.position as u64), &mut line, 16);
    text::put(&text::decimal::<2>(w.width as u64), &mut line, 25);
    text::put(&text::decimal::<2>(w.a as u64), &mut line, 30);
    text::put(&text::decimal::<2>(w.b as u64), &mut line, 35);
    text::put(&text::decimal::<2>(w.y as u64), &mut line, 40);
    line
}

// The first line, with its line feed.
fn first_line(version: u32, registers: u32) -> [u8; FIRST]
    ensures { result ≡ ended (first_line version registers) }
{
    let mut line = *b"version=0 registers=00\n";
    text::put(&text::decimal::<1>(version as u64), &mut line, 8);
    text::put(&text::decimal::<2>(registers as u64), &mut line, 20);
    line
}

// The name of a switch into a text at a place, if it is on; where the text goes on.
fn put_switch(on: u32, name: &[u8], text: &mut [u8], at: usize) -> usize
    requires { at + length (named on name.now) ≤ length text.old }
    ensures { Added (named on name.now) at text.old result text.new }
{
    if on == 0 {
        return at;
    }
    text::put(name, text, at)
}

// The names of the switches that are on.
// Kept: five calls, in the order of the line; five pairs of a number and a name, and a loop over them, would be longer.
fn put_switches(w: Word, text: &mut [u8], at: usize) -> usize
    requires { at + length (switches_of w) ≤ length text.old }
    ensures { Added (switches_of w) at text.old result text.new }
{
    let write = put_switch(w.write, b" write", text, at);
    let select = put_switch(w.select, b" macro-select", text, write);
    let carry = put_switch(w.carry, b" macro-carry", text, select);
    let link = put_switch(w.link, b" macro-link", text, carry);
    put_switch(w.borrow, b" borrow", text, link)
}

// A word's line into a text at a place, with its line feed; where the text goes on.
fn put_line(w: Word, text: &mut [u8], at: usize) -> usize
    requires { (w.opcode < 128) × (at + length (ended (word_line w)) ≤ length text.old) }
    ensures { Added (ended (word_line w)) at text.old result text.new }
{
    let name = mnemonics::column(w.opcode as usize);
    let column = text::put(&name, text, at);
    let six = numbers(w);
    let switches = text::put(&six, text, column);
    let end = put_switches(w, text, switches);
    text::put(b"\n", text, end)
}

// How many bytes a word's line has.
fn line_length(w: Word) -> usize
    requires { InRange w }
    ensures { result ≡ length (ended (word_line w)) }
{
    mnemonics::COLUMN
        + NUMBERS
        + 6 * w.write as usize
        + 13 * w.select as usize
        + 12 * w.carry as usize
        + 11 * w.link as usize
        + 7 * w.borrow as usize
        + 1
}

// ---- a sheet that was checked

// How many bytes its listing has.
fn size(sheet: &[u8]) -> usize
    requires { Ready sheet.now (declared_of sheet.now) }
    ensures { result ≡ length (listing_of sheet.now) }
{
    let count = sheet::words(sheet);
    let mut bytes: usize = FIRST;
    for k in 0..count {
        bytes += line_length(sheet::word_at(sheet, sheet, Which::Main, k));
    }
    bytes
}

// The lines of its words into a text from a place on; where they end.
fn put_lines(sheet: &[u8], text: &mut [u8], from: usize) -> usize
    requires { Ready sheet.now (declared_of sheet.now) × (from + length (word_lines (all_words sheet.now)) ≤ length text.old) }
    ensures { Added (word_lines (all_words sheet.now)) from text.old result text.new }
{
    let count = sheet::words(sheet);
    let mut at = from;
    for k in 0..count {
        at = put_line(sheet::word_at(sheet, sheet, Which::Main, k), text, at);
    }
    at
}

// Its listing at the start of a text that has room for it; how many bytes it has.
fn fill(sheet: &[u8], text: &mut [u8]) -> usize
    requires { Ready sheet.now (declared_of sheet.now) × (length (listing_of sheet.now) ≤ length text.old) }
    ensures { Written (listing_of sheet.now) text.old result text.new }
{
    let first = first_line(sheet::version(sheet), sheet::declared(sheet) as u32);
    let at = text::put(&first, text, 0);
    put_lines(sheet, text, at)
}

// ---- the entry point

// The listing of a sheet at the start of a lent buffer; how many bytes it has. `MOST` bytes always suffice.
pub fn list(sheet: &[u8], text: &mut [u8]) -> Result<usize, Refusal>
    ensures text_after { wrote result text.new ≡ list_of sheet.now text.old }
    ensures numbers { check_numbers result ≡ check_numbers (first_of (list_rows sheet.now (length text.old))) }
{
    sheet::check_sheet(sheet)?;
    refuse_if(text.len() < size(sheet), Reason::Room, 0)?;
    Ok(fill(sheet, text))
}
