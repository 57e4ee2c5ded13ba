// The trace: an input checked and taken apart, its run shown an execution at a time, and all of its text in one lent buffer. The programs above
// read an input, hand it to `trace`, and write what they get.
#![tactic(auto)]

ghost use Rattle.std.specs.Prelude.{◌≡◌, ◌+◌, ◌*◌, ◌≤◌, ◌<◌, length};
ghost use Rattle.reasons.specs.Reasons.{good};
ghost use Rattle.machine.specs.Status.{Good};
ghost use Rattle.chip.specs.Lists.{state};
ghost use Rattle.sheet.specs.Sheet.{words_of, declared_of, word_at, input_of, Ready};
ghost use Rattle.tracing.specs.Input.{size_of, registers_from};
ghost use Rattle.text.specs.Fill.{Added, Written};
ghost use Rattle.tracing.specs.Lines.{line_of, line_length, last_of, last_length, most_length, text_of};
ghost use Rattle.tracing.specs.Fill.{Traced, Filled};

use machine::{Core, Machine, Shown};
use reasons::Reason;
use sheet::Which;

// The bytes of an execution's line, and of the last line.
const LINE: usize = 38;

const LAST: usize = 8;

// The bytes of the longest text: 4,095 lines, and the last one.
pub const MOST: usize = 4095 * LINE + LAST;

// ---- text

// The line of an execution: index, Y, Q, status, pins.
fn line(index: usize, shown: Shown) -> [u8; LINE]
    requires { Good shown.core.status }
    ensures { result ≡ line_of index shown }
{
    let i = text::hex::<4>(index as u64);
    let y = text::hex::<8>(shown.y as u64);
    let q = text::hex::<8>(shown.core.q as u64);
    let s = text::hex::<8>(shown.status() as u64);
    let p = text::binary::<5>(shown.core.status.pins() as u64);
    let mut line = *b"0000 00000000 00000000 00000000 00000\n";
    text::put(&i, &mut line, 0);
    text::put(&y, &mut line, 5);
    text::put(&q, &mut line, 14);
    text::put(&s, &mut line, 23);
    text::put(&p, &mut line, 32);
    line
}

// The last line: reason and place.
// Kept: telling::numbers ends in a blank. Both share text's digits; one more function for the rest would be no plainer.
#[tactic(auto, unfolding(crate::specs::Lines::last_of))]
fn last_line(reason: Reason, place: usize) -> [u8; LAST]
    ensures { result ≡ last_of reason place }
{
    let n = text::decimal::<2>(reasons::number(reason) as u64);
    let p = text::hex::<4>(place as u64);
    [n[0], n[1], b' ', p[0], p[1], p[2], p[3], b'\n']
}

// ---- the input

// The bytes of the sheet that an input starts with.
#[tactic(auto, using(crate::proofs::Input::words_few), unfolding(crate::specs::Input::size_of))]
fn sheet_size(input: &[u8]) -> usize
    requires { 4 ≤ length input.now }
    ensures { result ≡ size_of input.now }
{
    4 + 6 * sheet::words(input)
}

// The registers that start at a place, into the whole file.
#[tactic(auto, using(crate::proofs::Input::loaded))]
fn load(input: &[u8], at: usize, file: &mut [u32])
    requires { at + 4 * length file.old ≤ length input.now }
    ensures { file.new ≡ registers_from input.now at 0 (length file.old) }
{
    for (k, register) in file.iter_mut().enumerate() {
        *register = bits::four_bytes_at(input, at + 4 * k);
    }
}

// ---- a run, shown

// The last line into a text at a place; where the text ends.
#[tactic(auto, using(crate::proofs::Lines::last_length_is))]
fn put_last(text: &mut [u8], at: usize, reason: Reason, place: usize) -> usize
    requires { at + last_length ≤ length text.old }
    ensures { Added (last_of reason place) at text.old result text.new }
{
    let line = last_line(reason, place);
    text::put(&line, text, at)
}

// Execution `index` of a sheet, run, and its line in its place. The sheet was checked once: this checks nothing again.
#[tactic(auto, using(crate::proofs::Lines::line_length_is, crate::proofs::Lines::traced_is))]
fn trace_word(sheet: &[u8], index: usize, file: &mut [u32], core: Core, text: &mut [u8]) -> Core
    requires ready { Ready sheet.now (length file.old) × (index < words_of sheet.now) × Good core.status }
    requires line_length_in_bounds { line_length * index + line_length ≤ length text.old }
    ensures { Traced (word_at sheet.now index) index (state file.old core) text.old (state file.new result) text.new }
{
    let shown = run::step_at(sheet, sheet, Which::Main, index, file, core);
    let line = line(index, shown);
    text::put(&line, text, LINE * index);
    shown.core
}

// The lines of a sheet's executions, from the first to the last on a fresh machine, at the start of a text; how many bytes they take.
fn fill(sheet: &[u8], file: &mut [u32], text: &mut [u8]) -> usize
    requires { Ready sheet.now (length file.old) × (line_length * words_of sheet.now ≤ length text.old) }
    ensures { Filled sheet.now file.old text.old result text.new }
{
    let n = sheet::executions(sheet);
    let mut core = Machine::fresh().enter();
    for index in 0..n {
        core = trace_word(sheet, index, file, core, text);
    }
    LINE * n
}

// The text of an input that was checked, on a file that has room for its registers.
#[tactic(auto, using(crate::proofs::Input::input_ready, crate::proofs::Input::input_room, crate::proofs::Input::words_few))]
fn trace_run(input: &[u8], file: &mut [u32], text: &mut [u8]) -> usize
    requires { (input_of input.now ≡ good) × (length file.old ≡ declared_of input.now) × (most_length ≤ length text.old) }
    ensures { Written (text_of input.now) text.old result text.new }
{
    load(input, sheet_size(input), file);
    let at = fill(input, file, text);
    put_last(text, at, Reason::Done, sheet::executions(input))
}

// The trace of an input: all of its text at the start of a lent buffer, which has room for the longest; how many bytes it has. Bytes past them
// stay.
// Kept: a slice, and no array of MOST bytes, which would ask for exactly that length of a caller.
#[tactic(auto, using(crate::proofs::Input::input_ready, crate::proofs::Input::room))]
pub fn trace(input: &[u8], text: &mut [u8]) -> usize
    requires { most_length ≤ length text.old }
    ensures { Written (text_of input.now) text.old result text.new }
{
    if let Err(refusal) = sheet::check_input(input) {
        return put_last(text, 0, refusal.reason, refusal.place);
    }
    let registers = sheet::declared(input);
    let mut file = [0u32; 64];
    trace_run(input, &mut file[..registers], text)
}

// That text, written to standard output.
pub fn write(input: &[u8], text: &mut [u8])
    requires { most_length ≤ length text.old }
{
    let n = trace(input, text);
    io::write_all(1, &text[..n]);
}
