// Opening a year, taking entries, and reading its book. Each passes a call on, so that the book is changed by these alone.
ghost use Rattle.std.specs.Prelude.{◌≡◌, [], ◌∷◌};
ghost use Rattle.questions.specs.Questions.{acceptance, told};
ghost use Rattle.year.specs.Terms.{open_refusal};
ghost use Rattle.yearbook.specs.Faults.{book_fault};
ghost use Rattle.yearbook.specs.Taken.{Unaltered};
ghost use Rattle.yearbook.specs.View.{book_of, unopened};
ghost use Rattle.journal.specs.Entries.{call_of};
ghost use Rattle.journal.specs.Taken.{EntryTaken, given};
ghost use Rattle.journal.specs.Kept.{AnyYear, Continued, Kept};

use super::KeptBook;
use crate::entry::{Answer, Entry};
use crate::kept_year::{enter, open_year};
use charges::rule::ChargeRule;
use yearbook::book::YearBook;
use yearbook::fault::BookFault;
use yearbook::terms::Terms;

impl KeptBook {
    // A book not yet opened.
    pub fn new() -> KeptBook
        ensures { book_of result.book ≡ unopened }
    {
        KeptBook {
            book: YearBook::new(),
        }
    }

    // Opens the book. A refused opening leaves it.
    pub fn open(&mut self, terms: Terms<'_>) -> Result<(), BookFault>
        ensures opened { told book_fault result ≡ acceptance (open_refusal (given terms.entry)) }
        ensures unaltered { Unaltered result self.old.book self.new.book }
        ensures law { Kept (open_refusal (given terms.entry)) (given terms.entry) [] (book_of self.old.book) (book_of self.new.book) }
    {
        open_year(&mut self.book, terms)
    }

    // Takes an entry.
    pub fn enter<R: ChargeRule>(&mut self, entry: &Entry<'_, R>) -> Result<Answer, BookFault>
        ensures taken { EntryTaken self.old.book (call_of R.code R.quantity entry.now) self.new.book result }
        ensures unaltered { Unaltered result self.old.book self.new.book }
        ensures law { Continued (book_of self.old.book) (call_of R.code R.quantity entry.now ∷ []) (book_of self.new.book) }
    {
        enter(&mut self.book, entry)
    }

    // The book, for reading.
    pub fn book(&self) -> &YearBook
        ensures same { result.now ≡ self.now.book }
        ensures law { ∥ AnyYear (book_of self.now.book) ∥₁ }
    {
        &self.book
    }
}
