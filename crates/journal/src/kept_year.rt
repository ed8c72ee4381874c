// Entries taken by the book, with the year law on each call.
ghost use Rattle.std.specs.Prelude.{◌≡◌, [], ◌∷◌, map};
ghost use Rattle.questions.specs.Questions.{acceptance, told};
ghost use Rattle.year.specs.Book.{run};
ghost use Rattle.year.specs.Terms.{open_refusal};
ghost use Rattle.yearbook.specs.Faults.{book_fault};
ghost use Rattle.yearbook.specs.Taken.{Unaltered};
ghost use Rattle.yearbook.specs.View.{book_of};
ghost use Rattle.journal.specs.Entries.{answers_to, as_answer, call_of, written, year_answers};
ghost use Rattle.journal.specs.Taken.{EntryTaken, given};
ghost use Rattle.journal.specs.Kept.{Continued, Kept, KeptInParts};

use crate::entry::{Answer, Entry};
use charges::rule::ChargeRule;
use yearbook::book::YearBook;
use yearbook::fault::BookFault;
use yearbook::terms::Terms;

// What an entry without figures is answered.
fn accepted(answer: Result<(), BookFault>) -> Result<Answer, BookFault>
    ensures { result ≡ as_answer answer }
{
    answer.map(|()| Answer::Accepted)
}

// Calls the book as the entry says. Apart from `enter`, so that the law is proved once and not in each arm.
fn call<R: ChargeRule>(book: &mut YearBook, entry: &Entry<'_, R>) -> Result<Answer, BookFault>
    ensures called { EntryTaken book.old (call_of R.code R.quantity entry.now) book.new result }
    ensures unaltered { Unaltered result book.old book.new }
{
    match entry {
        Entry::Post {
            rule,
            day,
            rate,
            sheet,
        } => book.post(*rule, *day, *rate, *sheet).map(Answer::Posted),
        Entry::Adjust {
            coordinator,
            amount,
        } => accepted(book.adjust(*coordinator, *amount)),
        Entry::Pay {
            side,
            coordinator,
            amount,
        } => accepted(book.pay(*side, *coordinator, *amount)),
        Entry::Assess { charge, minimum } => accepted(book.assess(*charge, *minimum)),
        Entry::Default { debtor, unpaid } => accepted(book.default_on(*debtor, *unpaid)),
    }
}

// Takes one entry. If the book was what an opening and some calls leave, it then is what these and the entry leave, and
// the year law holds of it.
pub fn enter<R: ChargeRule>(book: &mut YearBook, entry: &Entry<'_, R>) -> Result<Answer, BookFault>
    ensures taken { EntryTaken book.old (call_of R.code R.quantity entry.now) book.new result }
    ensures unaltered { Unaltered result book.old book.new }
    ensures law { Continued (book_of book.old) (call_of R.code R.quantity entry.now ∷ []) (book_of book.new) }
{
    call(book, entry)
}

// Takes the entries in turn, and writes what each is answered, as far as there are places for it. The caller lends the
// places, since nothing here is on the heap.
pub fn enter_all<R: ChargeRule>(
    book: &mut YearBook,
    entries: &[Entry<'_, R>],
    answers: &mut [Result<Answer, BookFault>],
)
    ensures left { book_of book.new ≡ run (book_of book.old) (map (call_of R.code R.quantity) entries.now) }
    ensures answered { map (told book_fault) answers.new ≡ written (map (told book_fault) answers.old) (answers_to (book_of book.old) (map (call_of R.code R.quantity) entries.now)) }
    ensures law { Continued (book_of book.old) (map (call_of R.code R.quantity) entries.now) (book_of book.new) }
{
    for (place, entry) in entries.iter().enumerate() {
        let answer = enter(book, entry);
        // Of a write through `get_mut` a proof learns only the length, so that the answers could not be proved.
        if place < answers.len() {
            answers[place] = answer;
        }
    }
}

// Opens the book for a year. A refused opening leaves it.
pub fn open_year(book: &mut YearBook, terms: Terms<'_>) -> Result<(), BookFault>
    ensures opened { told book_fault result ≡ acceptance (open_refusal (given terms.entry)) }
    ensures unaltered { Unaltered result book.old book.new }
    ensures law { Kept (open_refusal (given terms.entry)) (given terms.entry) [] (book_of book.old) (book_of book.new) }
{
    book.open(terms)
}

// Opens the book and takes a year's entries in turn. A refused opening leaves the book and the answers.
pub fn keep_year<R: ChargeRule>(
    book: &mut YearBook,
    terms: Terms<'_>,
    entries: &[Entry<'_, R>],
    answers: &mut [Result<Answer, BookFault>],
) -> Result<(), BookFault>
    ensures opened { told book_fault result ≡ acceptance (open_refusal (given terms.entry)) }
    ensures unaltered { Unaltered result book.old book.new }
    ensures law { Kept (open_refusal (given terms.entry)) (given terms.entry) (map (call_of R.code R.quantity) entries.now) (book_of book.old) (book_of book.new) }
    ensures answered { map (told book_fault) answers.new ≡ written (map (told book_fault) answers.old) (year_answers (open_refusal (given terms.entry)) (given terms.entry) (map (call_of R.code R.quantity) entries.now)) }
{
    open_year(book, terms)?;
    enter_all(book, entries, answers);
    Ok(())
}

// A year kept by several calls is one kept year.
pub fn kept_in_parts()
    ensures { KeptInParts }
{}
