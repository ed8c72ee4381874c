// Years in a new book: the first refusal if there is one, and the balances that the entries leave.
mod table;

use crate::verdict::verdict;
use crate::years::table::EXAMPLES;
use charges::trade_fee::TradeFee;
use journal::entry::{Answer, Entry};
use journal::kept_year::keep_year;
use questions::fault::Fault;
use std::alloc::Global;
use yearbook::book::YearBook;
use yearbook::fault::BookFault;
use yearbook::terms::Terms;

pub struct YearExample {
    pub name: &'static str,
    pub terms: Terms<'static>,
    pub entries: &'static [Entry<'static, TradeFee>],
    // With its question's number.
    pub refusal: Option<(BookFault, u8)>,
    pub market: i64,
    pub rc: &'static [u64],
}

// The first refusal among the answers.
fn first_refusal(answers: &[Result<Answer, BookFault>]) -> Option<BookFault> {
    answers.iter().find_map(|answer| answer.err())
}

fn rc_balances(heap: Global, book: &YearBook, count: usize) -> anyhow::Result<Vec<u64>> {
    let balances = (0..count)
        .filter_map(|coordinator| book.balances(coordinator).ok())
        .map(|(_, rc)| rc)
        .collect(heap)?;
    Ok(balances)
}

fn show_year(rt: &HostRuntime, example: &YearExample) -> anyhow::Result<()> {
    let name = example.name;
    let mut book = YearBook::new();
    // One place more than there are entries: it stays as it is.
    let places = example.entries.len().saturating_add(1);
    let mut answers = vec![in rt.alloc(); Ok(Answer::Accepted); places]?;
    let _ = keep_year(
        &mut book,
        example.terms,
        example.entries,
        answers.as_mut_slice(),
    );
    let (market, _) = book.totals();
    let rc = rc_balances(rt.alloc(), &book, example.terms.demands.len())?;
    let refusal = first_refusal(answers.as_slice());
    let kept = market == example.market && rc.as_slice() == example.rc;
    let told = refusal.map(|fault| (fault, fault.question()));
    let verdict = verdict(kept && told == example.refusal);
    match refusal {
        None => println!(rt; "{name}: accepted, market {market}, RC {rc:?}: {verdict}")?,
        Some(fault) => println!(rt;
            "{name}: refused {fault}, market {market}, RC {rc:?}: {verdict}"
        )?,
    }
    Ok(())
}

pub fn show(rt: &HostRuntime) -> anyhow::Result<()> {
    for example in &EXAMPLES {
        show_year(rt, example)?;
    }
    Ok(())
}
