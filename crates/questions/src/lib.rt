// How a call asks its questions: a refusal names the question, the layer that asks it and the place.
#![tactic(auto)]

pub mod fault;

use std::fmt;

// The part of the engine that asks a question.
#[derive(Clone, Copy, PartialEq, Eq, Debug)]
pub enum Layer {
    Sheet,
    Book,
    Rc,
    Concession,
}

impl fmt::Display for Layer {
    fn fmt<W: fmt::Write>(&self, f: &mut fmt::Formatter<W>) -> fmt::Result {
        f.write_str(match self {
            Layer::Sheet => "sheet",
            Layer::Book => "book",
            Layer::Rc => "RC",
            Layer::Concession => "concession",
        })
    }
}
