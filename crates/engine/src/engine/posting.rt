// Posting and quoting a charge by the rule that the engine keeps for it.
ghost use Rattle.std.specs.Prelude.{◌≡◌, [], ◌∷◌};
ghost use Rattle.questions.specs.Questions.{answer, told};
ghost use Rattle.charges.specs.Rules.{meaning};
ghost use Rattle.year.specs.Reading.{quote as quoting, quote_refusal};
ghost use Rattle.yearbook.specs.Faults.{book_fault};
ghost use Rattle.yearbook.specs.Taken.{Unaltered};
ghost use Rattle.yearbook.specs.View.{book_of};
ghost use Rattle.journal.specs.Kept.{Continued};
ghost use Rattle.journal.specs.Taken.{EntryTaken};
ghost use Rattle.engine.specs.Rules.{SameRules, meaning_in, post_call};

use super::Engine;
use crate::charge::Charge;
use charges::bid_segment::BidSegment;
use charges::rule::ChargeRule;
use charges::tor::Tor;
use charges::trade_fee::TradeFee;
use journal::entry::{Answer, Entry};
use journal::kept_book::KeptBook;
use yearbook::fault::BookFault;

fn post<'a, R: ChargeRule>(
    book: &mut KeptBook,
    rule: &'a R,
    day: u16,
    rate: u32,
    sheet: &'a [u8],
) -> Result<Answer, BookFault>
    ensures taken { EntryTaken book.old.book (post_call (meaning (R.code rule.now) (R.quantity rule.now)) day rate sheet.now) book.new.book result }
    ensures unaltered { Unaltered result book.old.book book.new.book }
    ensures law { Continued (book_of book.old.book) (post_call (meaning (R.code rule.now) (R.quantity rule.now)) day rate sheet.now ∷ []) (book_of book.new.book) }
{
    let entry = Entry::Post {
        rule,
        day,
        rate,
        sheet,
    };
    book.enter(&entry)
}

// Each charge has a rule of a type of its own, so both calls match on the charge: no closure is generic in a rule.
impl Engine {
    // Posts a charge, under the year law.
    pub fn post(
        &mut self,
        charge: Charge,
        day: u16,
        rate: u32,
        sheet: &[u8],
    ) -> Result<Answer, BookFault>
        ensures taken { EntryTaken self.old.kept.book (post_call (meaning_in self.old charge) day rate sheet.now) self.new.kept.book result }
        ensures unaltered { Unaltered result self.old.kept.book self.new.kept.book }
        ensures law { Continued (book_of self.old.kept.book) (post_call (meaning_in self.old charge) day rate sheet.now ∷ []) (book_of self.new.kept.book) }
        ensures rules { SameRules self.old self.new }
    {
        let book = &mut self.kept;
        match charge {
            Charge::MarketServices => post(book, &self.market_services, day, rate, sheet),
            Charge::SystemOperations => post(book, &self.system_operations, day, rate, sheet),
            Charge::BidSegment => post(book, &BidSegment, day, rate, sheet),
            Charge::Tor => post(book, &Tor, day, rate, sheet),
            Charge::TradeFee => post(book, &TradeFee, day, rate, sheet),
        }
    }

    // A coordinator's charge quantity, together with its line: a pair, as the rules have it.
    pub fn quote(
        &self,
        charge: Charge,
        coordinator: usize,
        rate: u32,
        sheet: &[u8],
    ) -> Result<(u64, u64), BookFault>
        ensures { told book_fault result ≡ answer (quote_refusal (book_of self.now.kept.book) rate sheet.now coordinator) (quoting (meaning_in self.now charge) rate sheet.now coordinator) }
    {
        let book = self.kept.book();
        match charge {
            Charge::MarketServices => book.quote(&self.market_services, coordinator, rate, sheet),
            Charge::SystemOperations => {
                book.quote(&self.system_operations, coordinator, rate, sheet)
            }
            Charge::BidSegment => book.quote(&BidSegment, coordinator, rate, sheet),
            Charge::Tor => book.quote(&Tor, coordinator, rate, sheet),
            Charge::TradeFee => book.quote(&TradeFee, coordinator, rate, sheet),
        }
    }
}
