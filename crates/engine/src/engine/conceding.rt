// Entries in the concessions' tables.
ghost use Rattle.std.specs.Prelude.{◌≡◌, MatchResult};
ghost use Rattle.questions.specs.Questions.{acceptance, told};
ghost use Rattle.concessions.specs.Faults.{concession_fault};
ghost use Rattle.engine.specs.Concessions.{Conceded, concession_refusal};

use super::Engine;
use crate::concession::ConcessionEntry;
use concessions::fault::ConcessionFault;
use concessions::grandfathering::TakesAllowance;

impl Engine {
    // Enters a figure in a concession's table; the book stays.
    pub fn concede(&mut self, entry: ConcessionEntry) -> Result<(), ConcessionFault>
        ensures answered { told concession_fault result ≡ acceptance (concession_refusal self.old entry) }
        ensures table { MatchResult result (λ _. Conceded entry self.old self.new) (λ _. self.new ≡ self.old) }
        ensures book { self.new.kept ≡ self.old.kept }
    {
        match entry {
            ConcessionEntry::MarketServicesExclusion { coordinator, mark } => {
                self.market_services.set_mark(coordinator, mark)
            }
            ConcessionEntry::SystemOperationsExclusion { coordinator, mark } => {
                self.system_operations.set_mark(coordinator, mark)
            }
            ConcessionEntry::RampIn {
                coordinator,
                percent,
            } => self.system_operations.set_percent(coordinator, percent),
            ConcessionEntry::Grandfathering { pair, allowance } => self
                .system_operations
                .set_allowance(pair, allowance),
        }
    }
}
