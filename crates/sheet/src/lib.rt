// Sheets: the header, the words, and the reasons for which a sheet is refused.
#![tactic(auto)]

ghost use Rattle.std.specs.Prelude.{◌≡◌, ◌+◌, ◌*◌, ◌≤◌, length};
ghost use Rattle.reasons.specs.Reasons.{first_of, none_hold, rows_by, check_numbers};
ghost use Rattle.packing.specs.Registers.{Narrow};
ghost use Rattle.sheet.specs.Sheet.{number4, version_of, count_of, registers_of, words_of, declared_of, part_of, number_at, word_at, executions_of, sheet_of, bad_header, fewer, number_rows, word_rows, opening_rows, head_rows, start_rows, check_beside, check_of, input_of};
ghost use Rattle.sheet.specs.Heading.{heading_rows, heading_of};

use chip::Word;
use reasons::{Reason, Refusal, refuse_if};

// Which of two lent sheets a word comes from.
#[derive(Clone, Copy)]
pub enum Which {
    Main,
    Handler,
}

// What a header says: its three numbers.
#[derive(Clone, Copy)]
pub struct Heading {
    pub version: u32,
    pub words: u32,
    pub registers: u32,
}

// ---- the header and the words

// The header as one number.
fn header(s: &[u8]) -> u32
    requires { 4 ≤ length s.now }
    ensures { result ≡ number4 s.now }
{
    bits::four_bytes_at(s, 0)
}

// The word count of a header.
// Kept: version, word count and register count are functions of the header's number, as the definitions are; a type round it would be no plainer.
// That there is a header, and that the words are within the bytes, stand in contracts: public functions (docs/FUNCTIONS.md) would ask more by a type.
fn count(h: u32) -> usize
    ensures { result ≡ count_of h }
{
    ((h >> 16) % 4096) as usize
}

// Its register count.
fn registers(h: u32) -> u32
    ensures { result ≡ registers_of h }
{
    (h >> 9) % 128
}

// The version of a sheet. Public for the crates above, which have checked the sheet.
pub fn version(s: &[u8]) -> u32
    requires { 4 ≤ length s.now }
    ensures { result ≡ version_of (number4 s.now) }
{
    header(s) >> 28
}

// How many words a sheet has. Public for the crates above, which have checked the sheet.
#[tactic(auto, unfolding(crate::specs::Sheet::words_of))]
pub fn words(s: &[u8]) -> usize
    requires { 4 ≤ length s.now }
    ensures { result ≡ words_of s.now }
{
    count(header(s))
}

// How many executions: one for each word. Public for the crates above, which have checked the sheet.
#[tactic(auto, using(crate::proofs::Positions::counting))]
pub fn executions(s: &[u8]) -> usize
    requires { 4 ≤ length s.now }
    ensures { result ≡ length (executions_of s.now) }
{
    words(s)
}

// How many registers it declares. Public for the crates above, which have checked the sheet.
#[tactic(auto, unfolding(crate::specs::Sheet::declared_of))]
pub fn declared(s: &[u8]) -> usize
    requires { 4 ≤ length s.now }
    ensures { result ≡ declared_of s.now }
{
    registers(header(s)) as usize
}

// The six bytes of word `index` of a sheet.
fn part(s: &[u8], index: usize) -> &[u8]
    requires { 4 + 6 * index + 6 ≤ length s.now }
    ensures { result.now ≡ part_of s.now index }
{
    let from = 4 + 6 * index;
    let to = from + 6;
    &s[from..to]
}

// The six bytes of a word of one of two sheets, the main list's or the handler's: the only way a run gets a word. Public for the crates
// above, which have checked both sheets.
// Kept: two lent sheets and which of them is meant, as the paper names the form (docs/DECISIONS.md).
pub fn fetch<'a>(main: &'a [u8], handler: &'a [u8], from: Which, index: usize) -> &'a [u8]
    requires { 4 + 6 * index + 6 ≤ length (sheet_of from main.now handler.now) }
    ensures { result.now ≡ part_of (sheet_of from main.now handler.now) index }
{
    match from {
        Which::Main => part(main, index),
        Which::Handler => part(handler, index),
    }
}

// The number of a word of one of two sheets.
#[tactic(auto, unfolding(crate::specs::Sheet::number_at))]
fn number_at<'a>(main: &'a [u8], handler: &'a [u8], from: Which, index: usize) -> u64
    requires { 4 + 6 * index + 6 ≤ length (sheet_of from main.now handler.now) }
    ensures { result ≡ number_at (sheet_of from main.now handler.now) index }
{
    packing::word_number(fetch(main, handler, from, index))
}

// The fields of a word of one of two sheets: the one way from a sheet's bytes to a word. Public for the crates above, as `fetch` is.
#[tactic(auto, using(packing::proofs::Registers::narrow))]
pub fn word_at<'a>(main: &'a [u8], handler: &'a [u8], from: Which, index: usize) -> Word
    requires { 4 + 6 * index + 6 ≤ length (sheet_of from main.now handler.now) }
    ensures { (result ≡ word_at (sheet_of from main.now handler.now) index) × Narrow result }
{
    packing::fields(number_at(main, handler, from, index))
}

// ---- its reasons

// Whether zero bits of the header are set, or its register count is 0 or above 64.
fn bad_header(h: u32) -> bool
    ensures { result ≡ bad_header h }
{
    let n = registers(h);
    (h % 512 != 0) | (n == 0) | (64 < n)
}

// Whether a file is lent and has fewer than n registers.
fn lends_fewer(file: Option<usize>, n: usize) -> bool
    ensures { result ≡ fewer file n }
{
    file.is_some_and(|lent| lent < n)
}

// Reason 10: a start is given and lies above n.
fn check_position(start: Option<usize>, n: usize) -> Result<(), Refusal>
    ensures { result ≡ first_of (start_rows start n) }
{
    match start {
        None => Ok(()),
        Some(at) => refuse_if(n < at, Reason::Start, 0),
    }
}

// Reasons 4 and 5 of a header h.
fn check_opening(h: u32) -> Result<(), Refusal>
    ensures { result ≡ first_of (opening_rows h) }
{
    refuse_if(h >> 28 != 1, Reason::Version, 0)?;
    refuse_if(bad_header(h), Reason::Header, 0)
}

// Reasons 4 to 7 of `len` bytes whose header is h, with so many bytes beside the sheet for each register that it declares.
fn check_header(beside: usize, len: usize, h: u32, file: Option<usize>) -> Result<(), Refusal>
    requires { beside ≤ 4 }
    ensures { result ≡ first_of (head_rows beside len h file) }
{
    check_opening(h)?;
    let n = registers(h) as usize;
    let whole = 4 + 6 * count(h) + beside * n;
    refuse_if(len != whole, Reason::Length, 0)?;
    refuse_if(lends_fewer(file, n), Reason::File, 0)
}

// Reasons 8, 17, 1 and 9 of word k, whose number is v, in a sheet of n registers.
fn check_number(v: u64, n: u32, k: usize) -> Result<(), Refusal>
    ensures { result ≡ first_of (number_rows v n k) }
{
    refuse_if(v % 32 != 0, Reason::Spare, k)?;
    let w = packing::fields(v);
    refuse_if(packing::left_idle(w), Reason::Idle, k)?;
    refuse_if(chip::lacks_page(w.opcode), Reason::Opcode, k)?;
    refuse_if(packing::names_from(n, w), Reason::Register, k)
}

// Reasons 8, 17, 1 and 9 of word k, from the sheet's bytes.
#[tactic(auto, unfolding(crate::specs::Sheet::word_rows))]
fn check_word(s: &[u8], n: u32, k: usize) -> Result<(), Refusal>
    requires { 4 + 6 * k + 6 ≤ length s.now }
    ensures { result ≡ first_of (word_rows s.now n k) }
{
    check_number(number_at(s, s, Which::Main, k), n, k)
}

// The words in order: the first fault of the first word that has one.
#[tactic(auto, using(reasons::proofs::Rows::scanning))]
fn first_fault(s: &[u8], count: usize, n: u32) -> Result<(), Refusal>
    requires { 4 + 6 * count ≤ length s.now }
    ensures { result ≡ first_of (rows_by (word_rows s.now n) 0 count) }
{
    for k in 0..count {
        check_word(s, n, k)?;
    }
    Ok(())
}

// Whether word number v has no fault in a sheet of n registers: the tests of `check_number` at once, without a branch for each.
#[tactic(auto, using(packing::proofs::Numbers::idle_differs, packing::proofs::Registers::or_differs), unfolding(packing::specs::Packing::left_idle))]
fn sound(v: u64, n: u32) -> bool
    ensures { result ≡ none_hold (number_rows v n 0) }
{
    let w = packing::fields(v);
    (v % 32 | packing::idle_y(w) as u64 == 0)
        & !chip::lacks_page(w.opcode)
        & !packing::names_from(n, w)
}

// Whether no word has a fault. Nearly every sheet is sound, and this loop has one branch a word.
#[tactic(auto, using(reasons::proofs::Rows::rows_hold), unfolding(crate::specs::Sheet::word_rows))]
fn all_sound(s: &[u8], count: usize, n: u32) -> bool
    requires { 4 + 6 * count ≤ length s.now }
    ensures { result ≡ none_hold (rows_by (word_rows s.now n) 0 count) }
{
    for next in 0..count {
        if !sound(number_at(s, s, Which::Main, next), n) {
            return false;
        }
    }
    true
}

// The words in order: the first fault of the first word that has one, which is looked for only where there is one.
#[tactic(auto, using(reasons::proofs::Rows::hold_good))]
fn check_words(s: &[u8], count: usize, n: u32) -> Result<(), Refusal>
    requires { 4 + 6 * count ≤ length s.now }
    ensures { result ≡ first_of (rows_by (word_rows s.now n) 0 count) }
{
    if all_sound(s, count, n) {
        return Ok(());
    }
    first_fault(s, count, n)
}

// The whole table: 3 to 7, then the words, then 10.
#[tactic(auto, using(crate::proofs::Table::checking), unfolding(crate::specs::Sheet::words_of, crate::specs::Sheet::declared_of))]
fn check(beside: usize, s: &[u8], file: Option<usize>, start: Option<usize>) -> Result<(), Refusal>
    requires { beside ≤ 4 }
    ensures { result ≡ check_beside beside s.now file start }
{
    refuse_if(s.len() < 4, Reason::Short, 0)?;
    let h = header(s);
    check_header(beside, s.len(), h, file)?;
    check_words(s, count(h), registers(h))?;
    check_position(start, executions(s))
}

// A sheet on its own: no file is lent and no start word given, so 7 and 10 are skipped.
pub fn check_sheet(s: &[u8]) -> Result<(), Refusal>
    ensures value { result ≡ check_of s.now None None }
    ensures numbers { check_numbers result ≡ check_numbers (check_of s.now None None) }
{
    check(0, s, None, None)
}

// A sheet with a file of `lent` registers, and no start word.
pub fn check_on_file(s: &[u8], lent: usize) -> Result<(), Refusal>
    ensures value { result ≡ check_of s.now (Some lent) None }
    ensures numbers { check_numbers result ≡ check_numbers (check_of s.now (Some lent) None) }
{
    check(0, s, Some(lent), None)
}

// A sheet with a file of `lent` registers, started at execution `start`.
pub fn check_start(s: &[u8], lent: usize, start: usize) -> Result<(), Refusal>
    ensures value { result ≡ check_of s.now (Some lent) (Some start) }
    ensures numbers { check_numbers result ≡ check_numbers (check_of s.now (Some lent) (Some start)) }
{
    check(0, s, Some(lent), Some(start))
}

// A sheet with the registers that it declares after it, four bytes each, as the trace reads them. Public for the trace.
pub fn check_input(x: &[u8]) -> Result<(), Refusal>
    ensures { result ≡ input_of x.now }
{
    check(4, x, None, None)
}

// ---- the header alone

// The header in the first four bytes of `s`, for a caller that sizes its buffers by it: what follows it is not looked at.
#[tactic(auto, unfolding(crate::specs::Heading::heading_of))]
pub fn read_header(s: &[u8]) -> Result<Heading, Refusal>
    ensures value { result ≡ heading_of s.now }
    ensures numbers { check_numbers result ≡ check_numbers (first_of (heading_rows s.now)) }
{
    let length = s.len();
    refuse_if(length < 4, Reason::Short, 0)?;
    let h = header(s);
    check_opening(h)?;
    Ok(Heading {
        version: h >> 28,
        words: count(h) as u32,
        registers: registers(h),
    })
}
