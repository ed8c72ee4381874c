// Bid Segment: the bids and self-schedules of each hour and market, and the ancillary and virtual bids.
ghost use Rattle.std.specs.Prelude.{◌≡◌, ◌≤◌};
ghost use Rattle.charges.specs.Charges.{bid_segment, segments};
ghost use Rattle.charges.specs.Running.{bid_figures, segment_figures};
ghost use Rattle.charges.specs.BidSegmentFacts.{bid_figures_bounded, segment_figures_bounded, segment_bounded};
ghost use Rattle.std.proofs.Common.{rules};

use crate::figures::Figures;
use crate::group::{ByHour, Group};
use crate::rule::ChargeRule;
use crate::walk::total_of;
use sheet::kind::Kind;
use sheet::pair::Pair;
use sheet::row::Row;
use sheet::sheet::Sheet;

// Bids and self-schedules of an hour that are not zero, in the day-ahead and the real-time market.
#[derive(Clone, Copy, Default)]
pub struct HourBids {
    pub bids: u64,
    pub schedules: u64,
    pub real_time_bids: u64,
    pub real_time_schedules: u64,
}

// The hours' bids, and the ancillary and virtual ones of the day.
#[derive(Drop, Default)]
pub struct DayBids {
    pub hours: Group<HourBids, ByHour>,
    pub other_bids: u64,
}

// Beside a self-schedule the first bid is free.
fn segment_count(bids: u64, schedules: u64) -> u64
    requires { (bids ≤ 2048) × (schedules ≤ 2048) }
    ensures { result ≡ segments bids schedules }
{
    if schedules == 0 {
        bids
    } else {
        schedules + bids.saturating_sub(1)
    }
}

impl Figures for HourBids {
    ghost running = { bid_figures };

    ghost most = { 4 };

    ghost starts = { Prim.search rules };

    ghost low = { Prim.search rules };

    ghost bounded = { λ rs h. bid_figures_bounded rs h };

    fn add(&mut self, row: Row) {
        if row.quantity == 0 {
            return;
        }
        match row.kind() {
            Kind::DayAheadBid => self.bids += 1,
            Kind::DayAheadSchedule => self.schedules += 1,
            Kind::RealTimeBid => self.real_time_bids += 1,
            Kind::RealTimeSchedule => self.real_time_schedules += 1,
            _ => {}
        }
    }

    fn total(&self) -> u64 {
        segment_count(self.bids, self.schedules)
            + segment_count(self.real_time_bids, self.real_time_schedules)
    }
}

impl Figures for DayBids {
    ghost running = { segment_figures };

    ghost most = { 5 };

    ghost starts = { Prim.search rules };

    ghost low = { Prim.search rules };

    ghost bounded = { λ rs h. segment_figures_bounded rs h };

    fn add(&mut self, row: Row) {
        self.hours.add(row);
        if matches!(row.kind(), Kind::AncillaryBid | Kind::VirtualBid) && row.quantity != 0 {
            self.other_bids += 1;
        }
    }

    fn total(&self) -> u64 {
        self.hours.total() + self.other_bids
    }
}

#[derive(Clone, Copy, Default, PartialEq, Eq, Debug)]
pub struct BidSegment;

impl ChargeRule for BidSegment {
    ghost code = { λ x. 2 };

    ghost quantity = { λ x. bid_segment };

    ghost code_low = { Prim.search rules };

    ghost bounded = { λ x. segment_bounded };

    fn tell_code(&self) -> u8 {
        2
    }

    fn tell_quantity(&self, sheet: Sheet<'_>, pair: Pair) -> u64 {
        100_000 * total_of::<DayBids>(sheet, pair)
    }
}
