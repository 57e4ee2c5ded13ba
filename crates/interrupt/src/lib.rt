// Runs a main sheet with a handler let in at the boundaries of a schedule.
#![tactic(auto)]

ghost use Rattle.std.specs.Prelude.{◌≡◌, ◌++◌, ◌+◌, ◌^◌, ◌≤◌, ◌<◌, length, IsOk};
ghost use Rattle.machine.specs.Status.{Good};
ghost use Rattle.sheet.specs.Sheet.{executions_of, between, Ready};
ghost use Rattle.run.specs.Run.{Went};
ghost use Rattle.interrupt.specs.Serve.{Rising};
ghost use Rattle.interrupt.specs.Interrupt.{fine, marking, pair_of, verdict_of, left, line_of, interrupted_of, mark_in, served_numbers, Numbered};
ghost use Rattle.interrupt.specs.Demand3.{NoTrace};

use machine::Machine;
use reasons::{Outcome, Reason, Refusal};
use run::Going;
use sheet::Which;

// A fault: its mark, which is the sheet that it is in, or none of the two, and the refusal.
#[derive(Clone, Copy)]
pub struct Fault {
    pub mark: Option<Which>,
    pub refusal: Refusal,
}

// What an interrupted run answers: the number of words run, or the fault for which it is refused; Q and status.
// Kept: beside `run::RunAnswer`. One type with a parameter for what refuses would be longer wherever either is named.
#[derive(Clone, Copy)]
pub struct Served {
    pub outcome: Result<usize, Fault>,
    pub machine: Machine,
}

impl Served {
    // The mark's number: 0 neither, 1 main, 2 handler.
    pub fn mark(self) -> u32
        ensures { result ≡ mark_in self.outcome }
    {
        let Err(fault) = self.outcome else {
            return 0;
        };
        match fault.mark {
            None => 0,
            Some(Which::Main) => 1,
            Some(Which::Handler) => 2,
        }
    }

    // The answer in numbers, its mark apart.
    pub fn numbered(self) -> Outcome
        ensures { result ≡ served_numbers self.outcome }
    {
        match self.outcome {
            Ok(count) => reasons::numbered(Reason::Done, count),
            Err(fault) => Outcome::from(fault.refusal),
        }
    }
}

// ---- the reasons

// A check with its mark.
fn marked(mark: Option<Which>, check: Result<(), Refusal>) -> Result<(), Fault>
    ensures { result ≡ marking mark check fine }
{
    check.map_err(|refusal| Fault { mark, refusal })
}

// Reasons 11 to 13, of two sheets that are not refused themselves.
#[tactic(auto, unfolding(crate::specs::Interrupt::pair_of))]
fn judge_pair<'a>(
    main: &'a [u8],
    handler: &'a [u8],
    schedule: &[u16],
    lent: usize,
) -> Result<(), Fault>
    requires { Ready main.now lent × Ready handler.now lent }
    ensures { result ≡ pair_of main.now handler.now schedule.now }
{
    marked(Some(Which::Handler), handler::form(handler))?;
    marked(Some(Which::Main), handler::overlap(main, handler))?;
    let executions = sheet::executions(main);
    marked(None, handler::check_schedule(schedule, executions))
}

// All reasons, in their order.
#[tactic(auto, unfolding(crate::specs::Interrupt::verdict_of))]
fn judge<'a>(main: &'a [u8], handler: &'a [u8], schedule: &[u16], lent: usize) -> Result<(), Fault>
    ensures { result ≡ verdict_of main.now handler.now schedule.now lent }
{
    marked(Some(Which::Main), sheet::check_on_file(main, lent))?;
    marked(Some(Which::Handler), sheet::check_on_file(handler, lent))?;
    judge_pair(main, handler, schedule, lent)
}

// ---- the one line of executions

// The main executions from `at` up to boundary `b`, then the n executions of the handler.
fn turn<'a>(
    main: &'a [u8],
    handler: &'a [u8],
    file: &mut [u32],
    going: Going,
    at: usize,
    b: usize,
    n: usize,
) -> Going
    requires ready { Ready main.now (length file.old) × Ready handler.now (length file.old) × Good going.core.status }
    requires at_le_b { (at ≤ b) × (b ≤ length (executions_of main.now)) × (n ≡ length (executions_of handler.now)) }
    requires handler_bound { going.count + length (between at b (executions_of main.now) ++ executions_of handler.now) < 2 ^ 64 }
    ensures { Went (between at b (executions_of main.now) ++ executions_of handler.now) file.old going file.new result }
{
    let first = run::span(main, handler, Which::Main, file, going, at, b);
    run::span(main, handler, Which::Handler, file, first, 0, n)
}

// The main sheet from its first execution to its last, with the whole handler let in at each boundary.
fn serve<'a>(
    main: &'a [u8],
    handler: &'a [u8],
    schedule: &[u16],
    file: &mut [u32],
    going: Going,
) -> Going
    requires ready { Ready main.now (length file.old) × Ready handler.now (length file.old) × Good going.core.status }
    requires rising { Rising (length (executions_of main.now)) 0 schedule.now × (going.count + length (line_of main.now handler.now schedule.now) < 2 ^ 64) }
    ensures { Went (line_of main.now handler.now schedule.now) file.old going file.new result }
{
    let n = sheet::executions(handler);
    let mut on = going;
    let mut at: usize = 0;
    for j in 0..schedule.len() {
        let b = handler::boundary(schedule, j);
        on = turn(main, handler, file, on, at, b, n);
        at = b;
    }
    let end = sheet::executions(main);
    run::span(main, handler, Which::Main, file, on, at, end)
}

// The interrupted run: the main sheet with the handler let in at each boundary of the schedule, or a refusal that changes nothing. It leaves no
// trace (demand 3).
pub fn interrupted<'a>(
    main: &'a [u8],
    handler: &'a [u8],
    schedule: &[u16],
    file: &mut [u32],
    machine: Machine,
) -> Served
    ensures file_after { left result file.new
        ≡ interrupted_of main.now handler.now schedule.now file.old machine }
    ensures numbers { Numbered main.now handler.now schedule.now (length file.old) result }
    ensures no_trace { IsOk result.outcome
        → NoTrace main.now handler.now schedule.now file.old machine result.machine file.new }
{
    if let Err(fault) = judge(main, handler, schedule, file.len()) {
        return Served {
            outcome: Err(fault),
            machine,
        };
    }
    let first = Going {
        core: machine.enter(),
        count: 0,
    };
    let last = serve(main, handler, schedule, file, first);
    Served {
        outcome: Ok(last.count),
        machine: last.core.leave(),
    }
}
