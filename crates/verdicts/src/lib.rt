#![tactic(auto)]
// What a call is turned down for, and the number and place that it stands for. Document 01, "Turned down because of the input" and
// "Turned down because of the state".
ghost use Rattle.std.specs.Prelude.{◌≡◌};
ghost use Rattle.verdicts.specs.Verdicts.{refused, verdict_of, ◌or_else◌};

// Why a call is turned down, with its place where it has one. Numbers 1 to 7 are a book's; 11 is never told.
#[derive(Clone, Copy, PartialEq, Eq)]
pub enum Refusal {
    TooShort,
    WrongCount,
    WrongLayout,
    WrongEntry(u32),
    WrongStep(u32),
    WrongNesting(u32),
    WithoutPause(u32),
    WrongOrder,
    Unfit,
    ShortMarks,
    ShortNames,
    WrongForm,
    ShortBuffer,
}

// A refusal's number and place, as C is given them (`zulqenat_check_book`); both 0 where nothing is turned down.
#[repr(C)]
#[derive(Clone, Copy, PartialEq, Eq, Default)]
pub struct Verdict {
    pub number: u32,
    pub place: u32,
}

// The number and the place of a refusal.
impl From<Refusal> for Verdict {
    ghost use Rattle.verdicts.specs.Verdicts.{told};

    ghost from_gives = { λ refusal verdict. verdict ≡ told refusal };

    fn from(refusal: Refusal) -> Verdict {
        match refusal {
            Refusal::TooShort => as_verdict(1, 0),
            Refusal::WrongCount => as_verdict(2, 0),
            Refusal::WrongLayout => as_verdict(3, 0),
            Refusal::WrongEntry(routine) => as_verdict(4, routine),
            Refusal::WrongStep(step) => as_verdict(5, step),
            Refusal::WrongNesting(step) => as_verdict(6, step),
            Refusal::WithoutPause(step) => as_verdict(7, step),
            Refusal::WrongOrder => as_verdict(8, 0),
            Refusal::Unfit => as_verdict(9, 0),
            Refusal::ShortMarks => as_verdict(10, 0),
            Refusal::ShortNames => as_verdict(12, 0),
            Refusal::WrongForm => as_verdict(13, 0),
            Refusal::ShortBuffer => as_verdict(14, 0),
        }
    }
}

// The number and the place of an answer. A function and no From: the clauses of the calls name it, as the definition `verdict_of`.
pub fn verdict_of<T: Drop>(answer: Result<T, Refusal>) -> Verdict
    ensures { result ≡ verdict_of answer }
{
    match answer {
        Ok(_) => as_verdict(0, 0),
        Err(refusal) => Verdict::from(refusal),
    }
}

// A number and a place as a verdict; both 0 is that of nothing turned down, which C reads as such.
pub fn as_verdict(number: u32, place: u32) -> Verdict
    ensures { result ≡ refused number place }
{
    Verdict { number, place }
}

// The first of two answers that is a refusal; the second where neither is one.
pub fn first_refused(one: Result<(), Refusal>, other: Result<(), Refusal>) -> Result<(), Refusal>
    ensures { verdict_of result ≡ (verdict_of one or_else verdict_of other) }
{
    one.and(other)
}
