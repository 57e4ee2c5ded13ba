// The reasons that document 01 gives and document 02 adds, and what a check answers.
#![tactic(auto)]

ghost use Rattle.std.specs.Prelude.{◌≡◌, [], ◌∷◌, true, false, IfOk, IfErr};
ghost use Rattle.reasons.specs.Reasons.{◌gives◌at◌, first_of, number_of, outcome_of, check_numbers, answer_numbers};

// What a call answers for: done, or why it is refused. Done is one of them, since the paper numbers it with the others.
#[derive(Clone, Copy, PartialEq, Eq)]
pub enum Reason {
    Done,
    Opcode,
    Inputs,
    Short,
    Version,
    Header,
    Length,
    File,
    Spare,
    Register,
    Start,
    Form,
    Overlap,
    Schedule,
    Room,
    Text,
    Count,
    Idle,
}

// Why a call is refused, and where.
#[derive(Clone, Copy, PartialEq, Eq)]
pub struct Refusal {
    pub reason: Reason,
    pub place: usize,
}

// An answer in numbers: the paper's number of the reason, and the place, which is the number of words run where the reason is 0 and a sheet ran.
#[repr(C)]
#[derive(Clone, Copy)]
pub struct Outcome {
    pub reason: u32,
    pub place: u64,
}

// Refused where a condition holds: one row of a table of reasons.
pub fn refuse_if(holds: bool, reason: Reason, place: usize) -> Result<(), Refusal>
    ensures value { result ≡ first_of ((holds gives reason at place) ∷ []) }
    ensures passed { IfOk result (λ done. holds ≡ false) }
    ensures held { IfErr result (λ refusal. (holds ≡ true) × (refusal ≡ record { reason = reason; place = place })) }
{
    if holds {
        return Err(Refusal { reason, place });
    }
    Ok(())
}

// The paper's number of a reason.
pub fn number(r: Reason) -> u32
    ensures { result ≡ number_of r }
{
    r as u32
}

// A reason and its place in numbers.
pub fn numbered(reason: Reason, place: usize) -> Outcome
    ensures { result ≡ outcome_of reason place }
{
    Outcome {
        reason: number(reason),
        place: place as u64,
    }
}

// A refusal in numbers.
impl From<Refusal> for Outcome {
    ghost from_gives = { λ refusal outcome. outcome ≡ outcome_of refusal.reason refusal.place };

    fn from(refusal: Refusal) -> Outcome {
        numbered(refusal.reason, refusal.place)
    }
}

// What a run answers, in numbers: 0 and the number of words run, or a refusal's.
pub fn numbered_answer(answer: Result<usize, Refusal>) -> Outcome
    ensures { result ≡ answer_numbers answer }
{
    match answer {
        Ok(count) => numbered(Reason::Done, count),
        Err(refusal) => Outcome::from(refusal),
    }
}

// What a check answers, in numbers: 0 and 0 where there is nothing to refuse, whatever else is answered then.
pub fn numbered_check<T: Copy>(check: Result<T, Refusal>) -> Outcome
    ensures { result ≡ check_numbers check }
{
    match check {
        Ok(_) => numbered(Reason::Done, 0),
        Err(refusal) => Outcome::from(refusal),
    }
}
