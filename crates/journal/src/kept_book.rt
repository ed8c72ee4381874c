// A book that only an opening and entries change, so that the year law holds of it, whatever was done.
pub mod keeping;

ghost use Rattle.journal.specs.Kept.{AnyYear};
ghost use Rattle.yearbook.specs.View.{book_of};

use yearbook::book::YearBook;

#[derive(Drop)]
pub struct KeptBook {
    book: YearBook,
    ghost law: { ∥ AnyYear (book_of book) ∥₁ },
}
