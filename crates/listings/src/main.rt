// Sheets listed and texts read, one case after another, and a line about each: the gate's cases (oracle/listings.sh) and drawn ones
// (oracle/compare-listings.sh). Their form and that of the answers is in oracle/README.md; the stored answers are the independent program's.
// A lent buffer is A5 (hex) beforehand, and each case puts back what its answer was told from.
#![tactic(auto)]

ghost use Rattle.std.specs.Prelude.{◌≡◌, ◌+◌, ◌≤◌, length, IfOk};

use reasons::Refusal;

// What the bytes of a lent buffer are beforehand, and how many past those written go into the hash.
const BEFORE: u8 = 0xa5;

const PAST: usize = 64;

// The bytes of a case's letter, room and length.
const HEADER: usize = 9;

// Past this many cases the rest is not read.
const MOST: usize = 1000000;

// ---- calls

// A sheet listed; what is written fits the buffer.
// Kept: these two, and the two kinds of case below, differ in call, letter and what follows; one function over both would be no plainer.
fn listed(sheet: &[u8], text: &mut [u8]) -> Result<usize, Refusal>
    ensures { IfOk result (λ n. n ≤ length text.old) }
{
    listing::list(sheet, text)
}

// A text read.
fn read(text: &[u8], sheet: &mut [u8]) -> Result<usize, Refusal>
    ensures { IfOk result (λ n. n ≤ length sheet.old) }
{
    reading::read(text, sheet)
}

// ---- bytes

// How many bytes of a lent buffer are looked at after a call.
fn looked_at(answer: Result<usize, Refusal>, buffer: &[u8]) -> usize
    requires { IfOk answer (λ n. n ≤ length buffer.now) × (length buffer.now ≤ 425903) }
    ensures { result ≤ length buffer.now }
{
    buffer.len().min(answer.unwrap_or(0) + PAST)
}

// FNV-1a of 32 bits.
fn hash(bytes: &[u8]) -> u32 {
    bytes.iter().fold(
        2166136261,
        |hash: u32, b| (hash ^ *b as u32).wrapping_mul(16777619),
    )
}

// ---- answers

// A blank, and a number in eight hex digits.
fn print_number(n: u64) {
    io::write_all(1, b" ");
    io::write_all(1, &text::hex::<8>(n));
}

// Letter, reason, place, bytes written, hash of those looked at.
fn print_answer(letter: u8, answer: Result<usize, Refusal>, looked: &[u8]) {
    let outcome = reasons::numbered_check(answer);
    io::write_all(1, &[letter, b' ']);
    io::write_all(1, &text::decimal::<2>(outcome.reason as u64));
    io::write_all(1, b" ");
    io::write_all(1, &text::hex::<4>(outcome.place));
    print_number(answer.unwrap_or(0) as u64);
    print_number(hash(looked) as u64);
}

// Whether a text is read as the sheet that it was listed from.
fn comes_back(sheet: &[u8], text: &[u8], room: &mut [u8]) -> bool {
    match read(text, room) {
        Ok(n) => sheet == &room[..n],
        Err(_) => false,
    }
}

// Of a sheet that was listed, whether it comes back.
fn print_back(sheet: &[u8], text: &[u8], room: &mut [u8]) {
    if comes_back(sheet, text, room) {
        io::write_all(1, b" same");
    } else {
        io::write_all(1, b" differs");
    }
}

// Of a text that was read, length and hash of its sheet's listing.
fn print_listing(sheet: &[u8], room: &mut [u8]) {
    let n = listed(sheet, room).unwrap_or(0);
    print_number(n as u64);
    print_number(hash(&room[..n]) as u64);
}

// A sheet listed into a lent buffer.
fn answer_sheet(sheet: &[u8], text: &mut [u8], room: &mut [u8])
    requires { length text.old ≤ 425903 }
{
    let answer = listed(sheet, text);
    let looked = looked_at(answer, text);
    print_answer(b's', answer, &text[..looked]);
    if let Ok(n) = answer {
        print_back(sheet, &text[..n], room);
    }
    io::write_all(1, b"\n");
    text[..looked].fill(BEFORE);
}

// A text read into a lent buffer.
fn answer_text(text: &[u8], sheet: &mut [u8], room: &mut [u8])
    requires { length sheet.old ≤ 425903 }
{
    let answer = read(text, sheet);
    let looked = looked_at(answer, sheet);
    print_answer(b't', answer, &sheet[..looked]);
    if let Ok(n) = answer {
        print_listing(&sheet[..n], room);
    }
    io::write_all(1, b"\n");
    sheet[..looked].fill(BEFORE);
}

// ---- cases

// The number that stands at a place.
fn number_at(header: &[u8], at: usize) -> usize
    requires { at + 4 ≤ length header.now }
{
    bits::four_bytes_at(header, at) as usize
}

// One case, with as much of the buffer lent as its header says.
fn answer_case(header: &[u8], input: &[u8], lent: &mut [u8], room: &mut [u8])
    requires { (9 ≤ length header.now) × (length lent.old ≤ 425903) }
{
    let n = lent.len().min(number_at(header, 1));
    if header[0] == b's' {
        answer_sheet(input, &mut lent[..n], room);
    } else {
        answer_text(input, &mut lent[..n], room);
    }
}

// The next bytes of standard input into a buffer, if there are enough to fill it.
fn next_bytes(buffer: &mut [u8]) -> Option<()> {
    let n = buffer.len();
    (io::read_full(0, buffer) == n).then_some(())
}

// The next case of standard input, if there is one, whole and not longer than the room for it.
fn answer_next(input: &mut [u8], lent: &mut [u8], room: &mut [u8]) -> Option<()>
    requires { length lent.old ≤ 425903 }
{
    let mut header = [0u8; HEADER];
    next_bytes(&mut header)?;
    let case = input.get_mut(..number_at(&header, 5))?;
    next_bytes(case)?;
    answer_case(&header, case, lent, room);
    Some(())
}

fn answer_all(input: &mut [u8], lent: &mut [u8], room: &mut [u8])
    requires { length lent.old ≤ 425903 }
{
    for _ in 0..MOST {
        if answer_next(input, lent, room).is_none() {
            return;
        }
    }
}

// Room for the longest listing. That `main` knows its length alone keeps the proof short.
fn buffer() -> [u8; listing::MOST]
    ensures { 425903 ≡ length result }
{
    [BEFORE; listing::MOST]
}

fn main() {
    let mut input = buffer();
    let mut lent = buffer();
    let mut room = buffer();
    answer_all(&mut input, &mut lent, &mut room);
}
