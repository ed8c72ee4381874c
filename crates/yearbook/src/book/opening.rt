// A new book, and opening it.
ghost use Rattle.std.specs.Prelude.{◌≡◌, false, replicate};
ghost use Rattle.questions.specs.Questions.{acceptance, told};
ghost use Rattle.year.specs.Book.{opened, settled};
ghost use Rattle.year.specs.Terms.{open_refusal, terms_of};
ghost use Rattle.yearbook.specs.Faults.{book_fault};
ghost use Rattle.yearbook.specs.Taken.{Unaltered};
ghost use Rattle.yearbook.specs.View.{book_of, unopened};

use super::YearBook;
use crate::coordinators::Coordinators;
use crate::fault::BookFault;
use crate::terms::{Terms, check_terms, coordinators_of};
use arrayvec::ArrayVec;

fn nothing_posted() -> [[bool; 16]; 367]
    ensures { result ≡ replicate 367 (replicate 16 false) }
{
    [[false; 16]; 367]
}

impl YearBook {
    // A book not yet opened.
    pub fn new() -> YearBook
        ensures { book_of result ≡ unopened }
    {
        YearBook {
            coordinators: Coordinators {
                list: ArrayVec::new(),
            },
            posted: nothing_posted(),
            charge: None,
        }
    }

    // Opens the book anew: all balances are zero, with nothing posted or assessed.
    pub fn open(&mut self, terms: Terms<'_>) -> Result<(), BookFault>
        ensures answered { told book_fault result ≡ acceptance (open_refusal (terms_of terms.entry.demands.now terms.entry.flags.now)) }
        ensures left { book_of self.new ≡ settled (open_refusal (terms_of terms.entry.demands.now terms.entry.flags.now)) (book_of self.old) (opened (terms_of terms.entry.demands.now terms.entry.flags.now)) }
        ensures unaltered { Unaltered result self.old self.new }
    {
        check_terms(terms)?;
        self.coordinators = coordinators_of(terms);
        self.posted = nothing_posted();
        self.charge = None;
        Ok(())
    }
}
