// A figure for each of 64 coordinators.
ghost use Rattle.std.specs.Prelude.{◌≡◌, ◌≤◌, None, replicate, MatchResult, slice_index, slice_set};
ghost use Rattle.questions.specs.Questions.{acceptance, told};
ghost use Rattle.concessions.specs.Concessions.{range_refusal};
ghost use Rattle.concessions.specs.Faults.{concession_fault};

use crate::fault::ConcessionFault;
use std::marker::Model;

// No figure is above `MOST`; a contract sees the list of the figures.
#[derive(Drop)]
pub(crate) struct CoordinatorTable<const MOST: u8> {
    figures: [u8; 64],
}

impl<const MOST: u8> Model for CoordinatorTable<MOST> {
    ghost use Rattle.std.specs.Prelude.{ℕ, ◌≤◌, List, All};

    ghost Value = { List ℕ };

    ghost view = { λ t. t.figures };

    ghost invariant = { λ t. All (λ figure. figure ≤ MOST) t.figures };
}

impl<const MOST: u8> CoordinatorTable<MOST> {
    pub(crate) fn new() -> Self
        ensures { result ≡ replicate 64 0 }
    {
        CoordinatorTable { figures: [0; 64] }
    }

    // Zero past the table's end.
    pub(crate) fn get(&self, coordinator: usize) -> u8
        ensures value { result ≡ slice_index self.now coordinator }
        ensures at_most { result ≤ MOST }
    {
        self.figures.get(coordinator).copied().unwrap_or(0)
    }

    #[tactic(auto, unfolding(questions::specs::Questions::ask, crate::specs::Concessions::range_refusal))]
    pub(crate) fn set(&mut self, coordinator: usize, figure: u8) -> Result<(), ConcessionFault>
        ensures answered { told concession_fault result ≡ acceptance (range_refusal MOST coordinator figure None) }
        ensures table { MatchResult result (λ _. self.new ≡ slice_set self.old coordinator figure) (λ _. self.new ≡ self.old) }
    {
        if coordinator >= self.figures.len() || figure > MOST {
            return Err(ConcessionFault::OutOfRange);
        }
        self.figures[coordinator] = figure;
        Ok(())
    }
}
