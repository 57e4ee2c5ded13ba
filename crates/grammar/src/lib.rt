// One line of a listing, or of a text that an editor wrote by its rules (docs/LISTING.md): what it says.
#![tactic(auto)]

ghost use Rattle.std.specs.Prelude.{◌≡◌, [], ◌∷◌, map, ◌≤◌, length};
ghost use Rattle.text.specs.Ascii.{same};
ghost use Rattle.grammar.specs.Grammar.{blank, capital, number_in, starts_with, labelled, opcode_of, head_in, word_in};
ghost use Rattle.grammar.specs.Scan.{start_of, solid_end, name_in, part_of, taken_at, three_at, switch_at, switches_at, no_more};

use chip::Word;

// What the first line declares.
#[derive(Clone, Copy)]
pub struct Head {
    pub version: u32,
    pub registers: u32,
}

// Where a part starts and ends.
#[derive(Clone, Copy)]
struct Part {
    from: usize,
    to: usize,
}

// Whether a switch is on, and where the line goes on.
// Kept: numbers and no bool, since they go into a `Word`, whose fields are C's.
#[derive(Clone, Copy)]
struct Switch {
    on: u32,
    to: usize,
}

#[derive(Clone, Copy)]
struct Switches {
    write: u32,
    select: u32,
    carry: u32,
    link: u32,
    borrow: u32,
    to: usize,
}

// ---- bytes

// Space, tab, carriage return.
fn is_blank(c: u8) -> bool
    ensures { result ≡ blank c }
{
    (c == b' ') | (c == b'\t') | (c == b'\r')
}

// ---- places

// The first place from one on that is not blank.
// Kept: a line and a place, and no rest of a line: the definitions go by places (specs/Scan.antt).
fn past_blanks(line: &[u8], at: usize) -> usize
    requires { at ≤ length line.now }
    ensures { result ≡ start_of line.now at }
{
    at + line[at..].iter().take_while(|c| is_blank(**c)).count()
}

// The first place from one on that is blank.
fn past_part(line: &[u8], at: usize) -> usize
    requires { at ≤ length line.now }
    ensures { result ≡ solid_end line.now at }
{
    at + line[at..].iter().take_while(|c| !is_blank(**c)).count()
}

// The next part from a place on: it ends where it starts if there is none.
fn next(line: &[u8], at: usize) -> Part
    requires { at ≤ length line.now }
    ensures { result ≡ part_of line.now at }
{
    let from = past_blanks(line, at);
    Part {
        from,
        to: past_part(line, from),
    }
}

// ---- one part

// Whether a part starts with a name, which is in capitals.
fn starts_with(part: &[u8], name: &[u8]) -> bool
    ensures { result ≡ starts_with name.now (map capital part.now) }
{
    part.len() >= name.len()
        && part
            .iter()
            .zip(name)
            .all(|(c, d)| c.to_ascii_uppercase() == *d)
}

// Whether it is that name.
fn is_name(part: &[u8], name: &[u8]) -> bool
    ensures { result ≡ same (map capital part.now) name.now }
{
    (part.len() == name.len()) & starts_with(part, name)
}

// One decimal digit.
fn digit(d: u8) -> Option<u32>
    ensures { result ≡ number_in (d ∷ []) }
{
    d.is_ascii_digit().then(|| u32::from(d) - 48)
}

// One or two.
fn number(digits: &[u8]) -> Option<u32>
    ensures { result ≡ number_in digits.now }
{
    match digits {
        [d] => digit(*d),
        [d, e] => Some(10 * digit(*d)? + digit(*e)?),
        _ => None,
    }
}

// A number after its name.
fn labelled(part: &[u8], name: &[u8]) -> Option<u32>
    ensures { result ≡ labelled name.now (map capital part.now) }
{
    if !starts_with(part, name) {
        return None;
    }
    number(&part[name.len()..])
}

// Whether a part is the mnemonic that stands in a column.
fn is_mnemonic(part: &[u8], column: &[u8]) -> bool
    ensures { result ≡ same (map capital part.now) (name_in column.now) }
{
    let n = past_part(column, 0);
    is_name(part, &column[..n])
}

// The opcode number of a mnemonic.
fn opcode(part: &[u8]) -> Option<u32>
    ensures { result ≡ opcode_of (map capital part.now) }
{
    if part.is_empty() {
        return None;
    }
    mnemonics::table()
        .iter()
        .position(|column| is_mnemonic(part, column))
        .map(|k| k as u32)
}

// ---- one part after another

// The next part as a mnemonic, and where it ends.
// Kept: one function that takes how a part is read would have a longer contract than these two.
fn take_mnemonic(line: &[u8], at: usize) -> Option<(u32, usize)>
    requires { at ≤ length line.now }
    ensures { result ≡ taken_at opcode_of line.now at }
{
    let part = next(line, at);
    opcode(&line[part.from..part.to]).map(|number| (number, part.to))
}

// The next part as a number after its name, and where it ends.
fn take_number(line: &[u8], at: usize, name: &[u8]) -> Option<(u32, usize)>
    requires { at ≤ length line.now }
    ensures { result ≡ taken_at (labelled name.now) line.now at }
{
    let part = next(line, at);
    labelled(&line[part.from..part.to], name).map(|number| (number, part.to))
}

// Three numbers, each after its name, and where the last one ends.
fn take_three(
    line: &[u8],
    at: usize,
    first: &[u8],
    second: &[u8],
    third: &[u8],
) -> Option<(u32, u32, u32, usize)>
    requires { at ≤ length line.now }
    ensures { result ≡ three_at line.now at first.now second.now third.now }
{
    let (x, x_to) = take_number(line, at, first)?;
    let (y, y_to) = take_number(line, x_to, second)?;
    let (z, to) = take_number(line, y_to, third)?;
    Some((x, y, z, to))
}

// A switch: it is on where the next part is its name.
fn take_switch(line: &[u8], at: usize, name: &[u8]) -> Switch
    requires { at ≤ length line.now }
    ensures { result ≡ switch_at line.now at name.now }
{
    let part = next(line, at);
    if is_name(&line[part.from..part.to], name) {
        return Switch { on: 1, to: part.to };
    }
    Switch { on: 0, to: at }
}

// The five switches in their order.
fn take_switches(line: &[u8], at: usize) -> Switches
    requires { at ≤ length line.now }
    ensures { result ≡ switches_at line.now at }
{
    let write = take_switch(line, at, b"WRITE");
    let select = take_switch(line, write.to, b"MACRO-SELECT");
    let carry = take_switch(line, select.to, b"MACRO-CARRY");
    let link = take_switch(line, carry.to, b"MACRO-LINK");
    let borrow = take_switch(line, link.to, b"BORROW");
    Switches {
        write: write.on,
        select: select.on,
        carry: carry.on,
        link: link.on,
        borrow: borrow.on,
        to: borrow.to,
    }
}

// Whether no part is left from a place on.
fn no_more(line: &[u8], at: usize) -> bool
    requires { at ≤ length line.now }
    ensures { result ≡ no_more line.now at }
{
    past_blanks(line, at) == line.len()
}

// ---- the two kinds of line

// The first line, if it belongs to the grammar.
pub fn read_first(line: &[u8]) -> Option<Head>
    ensures { result ≡ head_in line.now }
{
    let (version, version_to) = take_number(line, 0, b"VERSION=")?;
    let (registers, to) = take_number(line, version_to, b"REGISTERS=")?;
    no_more(line, to).then_some(Head { version, registers })
}

// A word's line, if it belongs to the grammar.
pub fn read_word(line: &[u8]) -> Option<Word>
    ensures { result ≡ word_in line.now }
{
    let (opcode, name_to) = take_mnemonic(line, 0)?;
    let (code, position, width, kind_to) = take_three(
        line,
        name_to,
        b"CODE=",
        b"POSITION=",
        b"WIDTH=",
    )?;
    let (a, b, y, to) = take_three(line, kind_to, b"A=", b"B=", b"Y=")?;
    let s = take_switches(line, to);
    no_more(line, s.to).then_some(Word {
        opcode,
        code,
        position,
        width,
        a,
        b,
        y,
        write: s.write,
        select: s.select,
        carry: s.carry,
        link: s.link,
        borrow: s.borrow,
    })
}
