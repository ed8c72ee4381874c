// The years that are worked out.
use crate::years::YearExample;
use charges::trade_fee::TradeFee;
use journal::entry::Entry;
use yearbook::fault::BookFault;
use yearbook::side::Side;
use yearbook::terms::Terms;

// One trade side of coordinator 0.
const TRADE: [u8; 12] = [0, 1, 0, 7, 1, 1, 0, 40, 0, 0, 0, 0];

pub const EXAMPLES: [YearExample; 13] = [
    YearExample {
        name: "1,000 over demands 1, 1, 1",
        terms: Terms {
            demands: &[1, 1, 1],
            flags: &[0, 0, 0],
        },
        entries: &[Entry::Assess {
            charge: 1000,
            minimum: 0,
        }],
        refusal: None,
        market: 0,
        rc: &[333, 333, 334],
    },
    YearExample {
        name: "1,000 over demands 1, 1, 1, then coordinator 1 defaults on 100",
        terms: Terms {
            demands: &[1, 1, 1],
            flags: &[0, 0, 0],
        },
        entries: &[
            Entry::Assess {
                charge: 1000,
                minimum: 0,
            },
            Entry::Default {
                debtor: 1,
                unpaid: 100,
            },
        ],
        refusal: None,
        market: 0,
        rc: &[383, 233, 384],
    },
    YearExample {
        name: "1,000 over demands 1, 1, 1, then coordinator 1 defaults on 1",
        terms: Terms {
            demands: &[1, 1, 1],
            flags: &[0, 0, 0],
        },
        entries: &[
            Entry::Assess {
                charge: 1000,
                minimum: 0,
            },
            Entry::Default {
                debtor: 1,
                unpaid: 1,
            },
        ],
        refusal: None,
        market: 0,
        rc: &[333, 332, 335],
    },
    YearExample {
        name: "1,000 over demands 1, 1, 1, then coordinator 1 defaults on 100 and coordinator 0 on 83",
        terms: Terms {
            demands: &[1, 1, 1],
            flags: &[0, 0, 0],
        },
        entries: &[
            Entry::Assess {
                charge: 1000,
                minimum: 0,
            },
            Entry::Default {
                debtor: 1,
                unpaid: 100,
            },
            Entry::Default {
                debtor: 0,
                unpaid: 83,
            },
        ],
        refusal: None,
        market: 0,
        rc: &[300, 274, 426],
    },
    YearExample {
        name: "a minimum of 100 for a flagged coordinator",
        terms: Terms {
            demands: &[1, 0, 1],
            flags: &[0, 1, 0],
        },
        entries: &[Entry::Assess {
            charge: 1000,
            minimum: 100,
        }],
        refusal: None,
        market: 0,
        rc: &[450, 100, 450],
    },
    YearExample {
        name: "an assessment twice",
        terms: Terms {
            demands: &[1, 1, 1],
            flags: &[0, 0, 0],
        },
        entries: &[
            Entry::Assess {
                charge: 1000,
                minimum: 0,
            },
            Entry::Assess {
                charge: 1000,
                minimum: 0,
            },
        ],
        refusal: Some((BookFault::Assessed, 15)),
        market: 0,
        rc: &[333, 333, 334],
    },
    YearExample {
        name: "an RC payment of the balance",
        terms: Terms {
            demands: &[1, 1, 1],
            flags: &[0, 0, 0],
        },
        entries: &[
            Entry::Assess {
                charge: 1000,
                minimum: 0,
            },
            Entry::Pay {
                side: Side::Rc,
                coordinator: 0,
                amount: 333,
            },
        ],
        refusal: None,
        market: 0,
        rc: &[0, 333, 334],
    },
    YearExample {
        name: "an RC payment of one cent more",
        terms: Terms {
            demands: &[1, 1, 1],
            flags: &[0, 0, 0],
        },
        entries: &[
            Entry::Assess {
                charge: 1000,
                minimum: 0,
            },
            Entry::Pay {
                side: Side::Rc,
                coordinator: 0,
                amount: 334,
            },
        ],
        refusal: Some((BookFault::RcBalance, 14)),
        market: 0,
        rc: &[333, 333, 334],
    },
    YearExample {
        name: "a default in a book of one",
        terms: Terms {
            demands: &[5],
            flags: &[0],
        },
        entries: &[
            Entry::Assess {
                charge: 10,
                minimum: 0,
            },
            Entry::Default {
                debtor: 0,
                unpaid: 1,
            },
        ],
        refusal: Some((BookFault::NoCarrier, 17)),
        market: 0,
        rc: &[10],
    },
    YearExample {
        name: "a post on day 366",
        terms: Terms {
            demands: &[1, 1, 1],
            flags: &[0, 0, 0],
        },
        entries: &[Entry::Post {
            rule: &TradeFee,
            day: 366,
            rate: 5000,
            sheet: &TRADE,
        }],
        refusal: None,
        market: 50,
        rc: &[0, 0, 0],
    },
    YearExample {
        name: "a post on day 367",
        terms: Terms {
            demands: &[1, 1, 1],
            flags: &[0, 0, 0],
        },
        entries: &[Entry::Post {
            rule: &TradeFee,
            day: 367,
            rate: 5000,
            sheet: &TRADE,
        }],
        refusal: Some((BookFault::RateOrDay, 8)),
        market: 0,
        rc: &[0, 0, 0],
    },
    YearExample {
        name: "a day posted twice",
        terms: Terms {
            demands: &[1, 1, 1],
            flags: &[0, 0, 0],
        },
        entries: &[
            Entry::Post {
                rule: &TradeFee,
                day: 1,
                rate: 5000,
                sheet: &TRADE,
            },
            Entry::Post {
                rule: &TradeFee,
                day: 1,
                rate: 5000,
                sheet: &TRADE,
            },
        ],
        refusal: Some((BookFault::Posted, 10)),
        market: 50,
        rc: &[0, 0, 0],
    },
    YearExample {
        name: "a post, an adjustment of -10 and a payment of 5",
        terms: Terms {
            demands: &[1, 1, 1],
            flags: &[0, 0, 0],
        },
        entries: &[
            Entry::Post {
                rule: &TradeFee,
                day: 1,
                rate: 5000,
                sheet: &TRADE,
            },
            Entry::Adjust {
                coordinator: 0,
                amount: -10,
            },
            Entry::Pay {
                side: Side::Market,
                coordinator: 1,
                amount: 5,
            },
        ],
        refusal: None,
        market: 35,
        rc: &[0, 0, 0],
    },
];
