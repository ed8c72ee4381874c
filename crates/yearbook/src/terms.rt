// What a book is opened with.
ghost use Rattle.std.specs.Prelude.{◌≡◌, ◌≤◌, ◌&&◌, ◌||◌, length, replicate, pos, None, ◌==◌, nat_le};
ghost use Rattle.questions.specs.Questions.{acceptance, told};
ghost use Rattle.year.specs.Terms.{open_refusal, terms_of};
ghost use Rattle.yearbook.specs.Coordinators.{markets, rcs, terms_in};
ghost use Rattle.yearbook.specs.Faults.{book_fault};

use crate::bounds::{MOST_COORDINATORS, MOST_DEMAND};
use crate::coordinator::Coordinator;
use crate::coordinators::Coordinators;
use crate::fault::BookFault;
use arrayvec::ArrayVec;

// The demand and the flag of each coordinator; flag 1 marks a transmission operator without load. Two lists, since
// question 6 asks whether they are equally long.
#[derive(Clone, Copy)]
pub struct Terms<'a> {
    pub demands: &'a [u32],
    // Not `bool`: a caller may give any byte, and question 7 refuses one above 1.
    pub flags: &'a [u8],
}

fn equally_long(demands: usize, flags: usize) -> bool
    ensures { result ≡ (demands == flags && nat_le 1 demands && nat_le demands 64) }
{
    demands == flags && (1..=MOST_COORDINATORS).contains(&demands)
}

fn agree(demand: u32, flag: u8) -> bool
    ensures { result ≡ (nat_le demand 50000000 && nat_le flag 1 && (flag == 0 || demand == 0)) }
{
    demand <= MOST_DEMAND && flag <= 1 && (flag == 0 || demand == 0)
}

// Questions 6 and 7.
pub(crate) fn check_terms(terms: Terms<'_>) -> Result<(), BookFault>
    ensures { told book_fault result ≡ acceptance (open_refusal (terms_of terms.entry.demands.now terms.entry.flags.now)) }
{
    if !equally_long(terms.demands.len(), terms.flags.len()) {
        return Err(BookFault::Lists);
    }
    for (coordinator, (demand, flag)) in terms.demands.iter().zip(terms.flags).enumerate() {
        if !agree(*demand, *flag) {
            return Err(BookFault::Terms(coordinator));
        }
    }
    Ok(())
}

// The coordinators that accepted terms name, with nothing on either side. A pass of its own, so that nothing is made of
// terms that fail.
pub(crate) fn coordinators_of(terms: Terms<'_>) -> Coordinators
    requires { open_refusal (terms_of terms.demands.now terms.flags.now) ≡ None }
    ensures terms { terms_in result.list.items ≡ terms_of terms.entry.demands.now terms.entry.flags.now }
    ensures markets { markets result.list.items ≡ replicate (length terms.entry.demands.now) (pos 0) }
    ensures rcs { rcs result.list.items ≡ replicate (length terms.entry.demands.now) 0 }
{
    let mut list = ArrayVec::new();
    for (demand, flag) in terms.demands.iter().zip(terms.flags) {
        list.push(Coordinator {
            demand: *demand,
            flagged: *flag == 1,
            market: 0,
            rc: 0,
        });
    }
    Coordinators { list }
}
