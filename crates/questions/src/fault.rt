// Why a call is refused: the question that was answered no, and what to tell of it.
ghost use Rattle.std.specs.Prelude.{◌≡◌};
ghost use Rattle.questions.specs.Questions.{Refusal};

use crate::Layer;
use std::fmt;

pub trait Fault {
    ghost refusal: { Self → Refusal };

    // A number and no enum: the rules number the questions, and callers are told that number.
    fn question(&self) -> u8
        ensures { result ≡ (refusal self.now).question };

    fn layer(&self) -> Layer
        ensures { result ≡ (refusal self.now).layer };

    // 0 where the question has no place, as every caller is told.
    fn place(&self) -> usize
        ensures { result ≡ (refusal self.now).place };

    fn reason(&self) -> &'static str;
}

// Question, layer, place, and what was wrong.
pub fn write_fault<F: Fault, W: fmt::Write>(fault: &F, f: &mut fmt::Formatter<W>) -> fmt::Result {
    let question = fault.question();
    let layer = fault.layer();
    let place = fault.place();
    let reason = fault.reason();
    write!(f, "{question} {layer} {place} {reason}")
}
