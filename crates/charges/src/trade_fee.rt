// The trade fee: each row of kind 40 is one trade side, at any quantity.
ghost use Rattle.charges.specs.Charges.{trade_fee};
ghost use Rattle.charges.specs.Running.{trade_figures};
ghost use Rattle.charges.specs.TradeFeeFacts.{trade_figures_bounded, trade_bounded};
ghost use Rattle.std.proofs.Common.{rules};

use crate::figures::Figures;
use crate::rule::ChargeRule;
use crate::walk::total_of;
use sheet::kind::Kind;
use sheet::pair::Pair;
use sheet::row::Row;
use sheet::sheet::Sheet;

#[derive(Clone, Copy, Default)]
pub struct TradeSides {
    pub sides: u64,
}

impl Figures for TradeSides {
    ghost running = { trade_figures };

    ghost most = { 1 };

    ghost starts = { Prim.search rules };

    ghost low = { Prim.search rules };

    ghost bounded = { λ rs h. trade_figures_bounded rs h };

    fn add(&mut self, row: Row) {
        if row.kind() == Kind::TradeSide {
            self.sides += 1;
        }
    }

    fn total(&self) -> u64 {
        self.sides
    }
}

#[derive(Clone, Copy, Default, PartialEq, Eq, Debug)]
pub struct TradeFee;

impl ChargeRule for TradeFee {
    ghost code = { λ x. 4 };

    ghost quantity = { λ x. trade_fee };

    ghost code_low = { Prim.search rules };

    ghost bounded = { λ x. trade_bounded };

    fn tell_code(&self) -> u8 {
        4
    }

    fn tell_quantity(&self, sheet: Sheet<'_>, pair: Pair) -> u64 {
        100_000 * total_of::<TradeSides>(sheet, pair)
    }
}
