#![tactic(auto)]
// What a step is to the blocks around it, and the counts of the timed kinds.
ghost use Rattle.std.specs.Prelude.{◌≡◌};
ghost use Rattle.forms.specs.Forms.{form_of};
ghost use Rattle.forms.specs.Timed.{timed_count};

use kinds::Kind;

// What a step is to the blocks around it.
#[derive(Clone, Copy)]
pub enum Form {
    Plain,
    Pausing,
    IfOpening,
    ElseMarker,
    WhileOpening,
    EndMarker,
}

// Rest pauses, and rest n does unless its count is 0.
pub fn form_of(kind: Kind) -> Form
    ensures { result ≡ form_of kind }
{
    match kind {
        Kind::Rest | Kind::RestFor(1..) => Form::Pausing,
        Kind::If(..) => Form::IfOpening,
        Kind::Else => Form::ElseMarker,
        Kind::While(..) => Form::WhileOpening,
        Kind::End => Form::EndMarker,
        _ => Form::Plain,
    }
}

// The n of a timed step; 0 for any other. No Option: what is left of a count is below it, and below 0 there is nothing.
pub fn timed_count(step: Option<Kind>) -> usize
    ensures { result ≡ timed_count step }
{
    match step {
        Some(Kind::RestFor(n) | Kind::WaitFor(_, n) | Kind::JoinFor(_, n)) => n,
        _ => 0,
    }
}
