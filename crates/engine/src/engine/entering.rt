// A new engine, opening its book, and taking entries. Each passes a call on, so that the kept book is changed by these
// alone.
ghost use Rattle.std.specs.Prelude.{◌≡◌, [], ◌∷◌};
ghost use Rattle.questions.specs.Questions.{acceptance, told};
ghost use Rattle.year.specs.Terms.{open_refusal};
ghost use Rattle.yearbook.specs.Faults.{book_fault};
ghost use Rattle.yearbook.specs.Taken.{Unaltered};
ghost use Rattle.yearbook.specs.View.{book_of, unopened};
ghost use Rattle.journal.specs.Kept.{Continued, Kept};
ghost use Rattle.journal.specs.Taken.{EntryTaken, given};
ghost use Rattle.engine.specs.Rules.{NewRules, SameRules, plain_call};

use super::{Engine, PlainEntry};
use concessions::posted::{posted_market_services, posted_system_operations};
use journal::entry::Answer;
use journal::kept_book::KeptBook;
use yearbook::fault::BookFault;
use yearbook::terms::Terms;

impl Engine {
    // A book not yet opened, and no concessions.
    pub fn new() -> Engine
        ensures book { book_of result.kept.book ≡ unopened }
        ensures rules { NewRules result }
    {
        Engine {
            kept: KeptBook::new(),
            market_services: posted_market_services(),
            system_operations: posted_system_operations(),
        }
    }

    // Opens the book for a year; the concessions stay.
    pub fn open(&mut self, terms: Terms<'_>) -> Result<(), BookFault>
        ensures opened { told book_fault result ≡ acceptance (open_refusal (given terms.entry)) }
        ensures unaltered { Unaltered result self.old.kept.book self.new.kept.book }
        ensures law { Kept (open_refusal (given terms.entry)) (given terms.entry) [] (book_of self.old.kept.book) (book_of self.new.kept.book) }
        ensures rules { SameRules self.old self.new }
    {
        self.kept.open(terms)
    }

    // Takes an entry, under the year law.
    pub fn enter(&mut self, entry: &PlainEntry<'_>) -> Result<Answer, BookFault>
        ensures taken { EntryTaken self.old.kept.book (plain_call entry.now) self.new.kept.book result }
        ensures unaltered { Unaltered result self.old.kept.book self.new.kept.book }
        ensures law { Continued (book_of self.old.kept.book) (plain_call entry.now ∷ []) (book_of self.new.kept.book) }
        ensures rules { SameRules self.old self.new }
    {
        self.kept.enter(entry)
    }
}
