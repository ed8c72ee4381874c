// Allowances for pairs of a coordinator and a resource.
ghost use Rattle.std.specs.Prelude.{◌≡◌, [], MatchResult, position};
ghost use Rattle.questions.specs.Questions.{acceptance, told};
ghost use Rattle.concessions.specs.Faults.{concession_fault};

use crate::fault::ConcessionFault;
use arrayvec::ArrayVec;
use sheet::pair::Pair;

const MOST_LISTED: usize = 128;

const MOST_ALLOWANCE: u64 = 819_200_000_000;

// The default fills the places of the list that are not used yet.
#[derive(Clone, Copy, Default, Debug)]
pub struct Allowance {
    pub pair: Pair,
    pub quantity: u64,
}

// At most 128 pairs are listed.
#[derive(Drop)]
pub struct Allowances {
    entries: ArrayVec<Allowance, MOST_LISTED>,
}

impl Allowances {
    ghost use Rattle.concessions.specs.Concessions.{Entered, allowance_of, allowance_refusal, listed, lists};

    pub fn new() -> Self
        ensures { listed result ≡ [] }
    {
        Allowances {
            entries: ArrayVec::new(),
        }
    }

    // Zero where the pair is not listed.
    pub fn get(&self, pair: Pair) -> u64
        ensures { result ≡ allowance_of pair.coordinator pair.resource (listed self.now) }
    {
        self.entries
            .iter()
            .find(|entry| entry.pair == pair)
            .map_or(0, |entry| entry.quantity)
    }

    // Where the pair is listed.
    fn place_of(&self, pair: Pair) -> Option<usize>
        ensures { result ≡ position (lists pair.coordinator pair.resource) (listed self.now) }
    {
        self.entries.iter().position(|entry| entry.pair == pair)
    }

    // Lists the pair, or replaces its allowance.
    pub fn set(&mut self, pair: Pair, allowance: u64) -> Result<(), ConcessionFault>
        ensures answered { told concession_fault result ≡ acceptance (allowance_refusal (listed self.old) pair.coordinator pair.resource allowance) }
        ensures table { MatchResult result (λ _. Entered pair.coordinator pair.resource allowance (listed self.old) (listed self.new)) (λ _. self.new ≡ self.old) }
    {
        if pair.coordinator >= 64 || allowance > MOST_ALLOWANCE {
            return Err(ConcessionFault::OutOfRange);
        }
        let entry = Allowance {
            pair,
            quantity: allowance,
        };
        match self.place_of(pair) {
            Some(place) => self.entries[place] = entry,
            None if self.entries.is_full() => return Err(ConcessionFault::Full),
            None => self.entries.push(entry),
        }
        Ok(())
    }
}
