// The rules as they are posted, each by its name, and one type for all of them.
ghost use Rattle.std.specs.Prelude.{◌≡◌, [], replicate, MatchResult, slice_set};
ghost use Rattle.questions.specs.Questions.{acceptance, told};
ghost use Rattle.concessions.specs.Concessions.{listed, mark_refusal};
ghost use Rattle.concessions.specs.Faults.{concession_fault};
ghost use Rattle.concessions.specs.Posted.{posted_code, posted_quantity};
ghost use Rattle.concessions.specs.PostedBounds.{posted_bounded};
ghost use Rattle.std.proofs.Common.{rules};

use crate::exclusion::Exclusion;
use crate::fault::ConcessionFault;
use crate::grandfathering::Grandfathering;
use crate::ramp_in::RampIn;
use charges::bid_segment::BidSegment;
use charges::market_services::MarketServices;
use charges::rule::ChargeRule;
use charges::system_operations::SystemOperations;
use charges::tor::Tor;
use charges::trade_fee::TradeFee;
use sheet::pair::Pair;
use sheet::sheet::Sheet;

pub type PostedMarketServices = Exclusion<MarketServices>;

pub type PostedSystemOperations = RampIn<Exclusion<Grandfathering<SystemOperations>>>;

pub fn posted_market_services() -> PostedMarketServices
    ensures { result.marks ≡ replicate 64 0 }
{
    Exclusion::new(MarketServices)
}

pub fn posted_system_operations() -> PostedSystemOperations
    ensures percents { result.percents ≡ replicate 64 0 }
    ensures marks { result.below.marks ≡ replicate 64 0 }
    ensures allowances { listed result.below.below.allowances ≡ [] }
{
    RampIn::new(Exclusion::new(Grandfathering::new(SystemOperations)))
}

// ---- an entry of the table below

// No trait, as allowances have one: for the one rule that passes marks on, two impls would say more than this.
impl<R> RampIn<Exclusion<R>> {
    pub fn set_mark(&mut self, coordinator: usize, mark: u8) -> Result<(), ConcessionFault>
        ensures answered { told concession_fault result ≡ acceptance (mark_refusal coordinator mark) }
        ensures table { MatchResult result (λ _. self.new.below.marks ≡ slice_set self.old.below.marks coordinator mark) (λ _. self.new ≡ self.old) }
        ensures rule { self.new.below.below ≡ self.old.below.below }
        ensures percents { self.new.percents ≡ self.old.percents }
    {
        self.below.set_mark(coordinator, mark)
    }
}

// ---- any posted rule

// A closed set, so an enum that calls on each.
#[derive(Drop)]
pub enum PostedRule {
    MarketServices(PostedMarketServices),
    SystemOperations(PostedSystemOperations),
    BidSegment(BidSegment),
    Tor(Tor),
    TradeFee(TradeFee),
}

impl ChargeRule for PostedRule {
    ghost code = { posted_code };

    ghost quantity = { posted_quantity };

    ghost code_low = { Prim.search rules };

    ghost bounded = { posted_bounded };

    fn tell_code(&self) -> u8 {
        match self {
            PostedRule::MarketServices(rule) => rule.tell_code(),
            PostedRule::SystemOperations(rule) => rule.tell_code(),
            PostedRule::BidSegment(rule) => rule.tell_code(),
            PostedRule::Tor(rule) => rule.tell_code(),
            PostedRule::TradeFee(rule) => rule.tell_code(),
        }
    }

    fn tell_quantity(&self, sheet: Sheet<'_>, pair: Pair) -> u64 {
        match self {
            PostedRule::MarketServices(rule) => rule.tell_quantity(sheet, pair),
            PostedRule::SystemOperations(rule) => rule.tell_quantity(sheet, pair),
            PostedRule::BidSegment(rule) => rule.tell_quantity(sheet, pair),
            PostedRule::Tor(rule) => rule.tell_quantity(sheet, pair),
            PostedRule::TradeFee(rule) => rule.tell_quantity(sheet, pair),
        }
    }
}
