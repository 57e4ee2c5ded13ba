// Reasons 11 to 13: the handler's form, registers that main list and handler both name, and the schedule.
#![tactic(auto)]

ghost use Rattle.std.specs.Prelude.{◌≡◌, ◌+◌, ◌*◌, ◌≤◌, ◌<◌, length, get_or};
ghost use Rattle.reasons.specs.Reasons.{first_of, rows_by, check_numbers};
ghost use Rattle.packing.specs.Registers.{common, names_all, Narrow};
ghost use Rattle.sheet.specs.Sheet.{words_of, words_from};
ghost use Rattle.handler.specs.Form.{saves, not_fixed, saving_status_fault, saving_q_fault, body_fault, loading_fault, giving_back_fault, fault_at, form_row, form_of, handler_of};
ghost use Rattle.handler.specs.Overlap.{overlap_row, overlap_of};
ghost use Rattle.handler.specs.Schedule.{entry_rows, schedule_of};

use chip::Word;
use reasons::{Reason, Refusal, refuse_if};
use sheet::Which;

// ---- sets of registers

// Whether two sets have a register in common.
#[tactic(auto, unfolding(packing::specs::Registers::common))]
fn meet(s: u64, t: u64) -> bool
    ensures { result ≡ common s t }
{
    s & t != 0
}

// The registers that n words of a sheet name, in one pass.
fn names_in(s: &[u8], n: usize) -> u64
    requires { 4 + 6 * n ≤ length s.now }
    ensures { result ≡ names_all (words_from s.now 0 n) }
{
    let mut set: u64 = 0;
    for k in 0..n {
        set |= packing::names(sheet::word_at(s, s, Which::Main, k));
    }
    set
}

// ---- 11: the form. `saved` is the set of s and q. In these tests `|` asks all, without a branch for each.

// Not a word of this opcode and write, or a byte code or a switch that is not 0.
#[tactic(auto, unfolding(crate::specs::Form::not_fixed))]
fn not_fixed(w: Word, opcode: u32, write: u32) -> bool
    ensures { result ≡ not_fixed w opcode write }
{
    (w.opcode != opcode)
        | (w.code != 0)
        | (w.write != write)
        | (w.select != 0)
        | (w.carry != 0)
        | (w.link != 0)
        | (w.borrow != 0)
}

// Word 0 saves the status in s.
// Kept: a function for each kind of word, as the definitions of the form are.
#[tactic(auto, unfolding(crate::specs::Form::saving_status_fault))]
fn saving_status_fault(saved: u64, w: Word) -> bool
    requires { Narrow w }
    ensures { result ≡ saving_status_fault saved w }
{
    not_fixed(w, 0x04, 1) | meet(packing::sources(w), saved)
}

// Word 1 saves Q in q, which is not s.
#[tactic(auto, unfolding(crate::specs::Form::saving_q_fault))]
fn saving_q_fault(saved: u64, s: u32, q: u32, w: Word) -> bool
    requires { Narrow w }
    ensures { result ≡ saving_q_fault saved s q w }
{
    not_fixed(w, 0x05, 1) | meet(packing::sources(w), saved) | (s == q)
}

// A word of the body, which names neither.
#[tactic(auto, unfolding(crate::specs::Form::body_fault))]
fn body_fault(saved: u64, w: Word) -> bool
    requires { Narrow w }
    ensures { result ≡ body_fault saved w }
{
    meet(packing::names(w), saved)
}

// Words 2 and 3 load Q and the status that the body starts with.
#[tactic(auto, unfolding(crate::specs::Form::loading_fault))]
fn loading_fault(opcode: u32, saved: u64, w: Word) -> bool
    requires { Narrow w }
    ensures { result ≡ loading_fault opcode saved w }
{
    not_fixed(w, opcode, 0) | body_fault(saved, w)
}

// The last two words give Q and then the status back; `back` is where this one was saved.
#[tactic(auto, unfolding(crate::specs::Form::giving_back_fault))]
fn giving_back_fault(opcode: u32, back: u32, saved: u64, w: Word) -> bool
    requires { Narrow w }
    ensures { result ≡ giving_back_fault opcode back saved w }
{
    not_fixed(w, opcode, 0)
        | (w.a != back)
        | meet(packing::only(w.b) | packing::destination(w), saved)
}

// Whether word k of n is at fault.
#[tactic(auto, unfolding(crate::specs::Form::fault_at))]
fn fault(n: usize, s: u32, q: u32, saved: u64, k: usize, w: Word) -> bool
    requires { Narrow w × (saved ≡ saves s q) × (k < n) }
    ensures { result ≡ fault_at n s q k w }
{
    match (k, n - k) {
        (0, _) => saving_status_fault(saved, w),
        (1, _) => saving_q_fault(saved, s, q, w),
        (2, _) => loading_fault(0x06, saved, w),
        (3, _) => loading_fault(0x1c, saved, w),
        (_, 2) => giving_back_fault(0x06, q, saved, w),
        (_, 1) => giving_back_fault(0x1c, s, saved, w),
        _ => body_fault(saved, w),
    }
}

// The first of n words that is at fault.
#[tactic(auto, using(reasons::proofs::Rows::scanning))]
fn first_misformed(h: &[u8], n: usize, s: u32, q: u32, saved: u64) -> Result<(), Refusal>
    requires { (4 + 6 * n ≤ length h.now) × (saved ≡ saves s q) }
    ensures { result ≡ first_of (rows_by (form_row h.now n s q) 0 n) }
{
    for k in 0..n {
        let w = sheet::word_at(h, h, Which::Main, k);
        refuse_if(fault(n, s, q, saved, k, w), Reason::Form, k)?;
    }
    Ok(())
}

// Reason 11; s and q are the Y fields of the first two words as they stand, written or not. Public for the crate above, which has checked the
// sheet.
#[tactic(auto, unfolding(crate::specs::Form::form_of))]
pub fn form(h: &[u8]) -> Result<(), Refusal>
    requires { (4 ≤ length h.now) × (4 + 6 * words_of h.now ≤ length h.now) }
    ensures { result ≡ form_of h.now }
{
    let n = sheet::words(h);
    refuse_if(n < 6, Reason::Form, 0)?;
    let first = sheet::word_at(h, h, Which::Main, 0);
    let second = sheet::word_at(h, h, Which::Main, 1);
    let saved = packing::only(first.y) | packing::only(second.y);
    first_misformed(h, n, first.y, second.y, saved)
}

// A sheet handed in as a handler, on its own: its own reasons, then the form.
#[tactic(auto, using(crate::proofs::FormLaws::handler_parts))]
pub fn check_handler(s: &[u8]) -> Result<(), Refusal>
    ensures value { result ≡ handler_of s.now }
    ensures numbers { check_numbers result ≡ check_numbers (handler_of s.now) }
{
    sheet::check_sheet(s)?;
    form(s)
}

// ---- 12: registers named by both

// The first of m main words that names a register of a set.
#[tactic(auto, using(reasons::proofs::Rows::scanning))]
fn first_sharing(main: &[u8], m: usize, theirs: u64) -> Result<(), Refusal>
    requires { 4 + 6 * m ≤ length main.now }
    ensures { result ≡ first_of (rows_by (overlap_row main.now theirs) 0 m) }
{
    for k in 0..m {
        let ours = packing::names(sheet::word_at(main, main, Which::Main, k));
        refuse_if(meet(ours, theirs), Reason::Overlap, k)?;
    }
    Ok(())
}

// Reason 12: the registers of the two sheets, each in one pass; only where they meet is the first main word looked for. Public for the crate
// above, which has checked both.
#[tactic(auto, using(crate::proofs::OverlapLaws::apart_good), unfolding(crate::specs::Overlap::overlap_of))]
pub fn overlap<'a>(main: &'a [u8], h: &'a [u8]) -> Result<(), Refusal>
    requires in_bounds { (4 ≤ length main.now) × (4 + 6 * words_of main.now ≤ length main.now) }
    requires in_bounds_2 { (4 ≤ length h.now) × (4 + 6 * words_of h.now ≤ length h.now) }
    ensures { result ≡ overlap_of main.now h.now }
{
    let m = sheet::words(main);
    let theirs = names_in(h, sheet::words(h));
    if meet(names_in(main, m), theirs) {
        return first_sharing(main, m, theirs);
    }
    Ok(())
}

// ---- 13: the schedule

// Boundary j of a schedule: the one place where one is read, so that loops over a schedule count its entries. Public for the crate above.
pub fn boundary(schedule: &[u16], j: usize) -> usize
    requires { j < length schedule.now }
    ensures { result ≡ get_or schedule.now j 0 }
{
    schedule[j] as usize
}

// Entry j is b, and the one before it is `last`; n is the number of main executions.
fn check_entry(n: usize, last: usize, b: usize, j: usize) -> Result<(), Refusal>
    ensures { result ≡ first_of (entry_rows n last b j) }
{
    let bad = (1024 <= j) | (n < b) | (b < last);
    refuse_if(bad, Reason::Schedule, j)
}

// Reason 13 for a main list of n executions, in one pass.
#[tactic(auto, using(crate::proofs::ScheduleLaws::scheduling), unfolding(crate::specs::Schedule::schedule_of))]
pub fn check_schedule(schedule: &[u16], n: usize) -> Result<(), Refusal>
    ensures { result ≡ schedule_of schedule.now n }
{
    let mut last: usize = 0;
    for j in 0..schedule.len() {
        let b = boundary(schedule, j);
        check_entry(n, last, b, j)?;
        last = b;
    }
    Ok(())
}
