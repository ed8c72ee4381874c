// The quotes that are worked out.
use crate::quotes::QuoteExample;
use crate::rows::Row;
use engine::charge::Charge;
use engine::concession::ConcessionEntry;
use sheet::pair::Pair;

const METER_1_000_000: [Row; 1] = [Row {
    resource: 7,
    part: 0,
    kind: 20,
    quantity: 1_000_000,
}];

pub const EXAMPLES: [QuoteExample; 14] = [
    QuoteExample {
        name: "market services, kinds 1 and 3",
        charge: Charge::MarketServices,
        concession: None,
        rows: &[
            Row {
                resource: 7,
                part: 0,
                kind: 1,
                quantity: 100_000,
            },
            Row {
                resource: 7,
                part: 0,
                kind: 3,
                quantity: -10_000,
            },
        ],
        rate: 836,
        quantity: 11_000_000,
        cents: 920,
    },
    QuoteExample {
        name: "market services, kinds 3 and 5",
        charge: Charge::MarketServices,
        concession: None,
        rows: &[
            Row {
                resource: 7,
                part: 0,
                kind: 3,
                quantity: 30_000,
            },
            Row {
                resource: 7,
                part: 0,
                kind: 5,
                quantity: -10_000,
            },
        ],
        rate: 836,
        quantity: 2_000_000,
        cents: 167,
    },
    QuoteExample {
        name: "market services, kind 1 below kind 8",
        charge: Charge::MarketServices,
        concession: None,
        rows: &[
            Row {
                resource: 7,
                part: 0,
                kind: 1,
                quantity: 50_000,
            },
            Row {
                resource: 7,
                part: 0,
                kind: 8,
                quantity: 60_000,
            },
        ],
        rate: 836,
        quantity: 0,
        cents: 0,
    },
    QuoteExample {
        name: "meter 90,000",
        charge: Charge::SystemOperations,
        concession: None,
        rows: &[Row {
            resource: 7,
            part: 0,
            kind: 20,
            quantity: 90_000,
        }],
        rate: 2899,
        quantity: 9_000_000,
        cents: 2_609,
    },
    QuoteExample {
        name: "meter 12,500",
        charge: Charge::SystemOperations,
        concession: None,
        rows: &[Row {
            resource: 7,
            part: 0,
            kind: 20,
            quantity: 12_500,
        }],
        rate: 2899,
        quantity: 1_250_000,
        cents: 362,
    },
    QuoteExample {
        name: "meter 110,000",
        charge: Charge::SystemOperations,
        concession: None,
        rows: &[Row {
            resource: 7,
            part: 0,
            kind: 20,
            quantity: 110_000,
        }],
        rate: 2899,
        quantity: 11_000_000,
        cents: 3_189,
    },
    QuoteExample {
        name: "meter 1,000,000 with ramp-in 95",
        charge: Charge::SystemOperations,
        concession: Some(ConcessionEntry::RampIn {
            coordinator: 0,
            percent: 95,
        }),
        rows: &METER_1_000_000,
        rate: 2899,
        quantity: 5_000_000,
        cents: 1_450,
    },
    QuoteExample {
        name: "meter 1,000,000 with exclusion",
        charge: Charge::SystemOperations,
        concession: Some(ConcessionEntry::SystemOperationsExclusion {
            coordinator: 0,
            mark: 1,
        }),
        rows: &METER_1_000_000,
        rate: 2899,
        quantity: 0,
        cents: 0,
    },
    QuoteExample {
        name: "meter 1,000,000 with allowance 30,000,000",
        charge: Charge::SystemOperations,
        concession: Some(ConcessionEntry::Grandfathering {
            pair: Pair {
                coordinator: 0,
                resource: 7,
            },
            allowance: 30_000_000,
        }),
        rows: &METER_1_000_000,
        rate: 2899,
        quantity: 70_000_000,
        cents: 20_293,
    },
    QuoteExample {
        name: "three bids and one self-schedule",
        charge: Charge::BidSegment,
        concession: None,
        rows: &[
            Row {
                resource: 7,
                part: 0,
                kind: 30,
                quantity: 1,
            },
            Row {
                resource: 7,
                part: 0,
                kind: 31,
                quantity: 1,
            },
            Row {
                resource: 7,
                part: 1,
                kind: 30,
                quantity: 1,
            },
            Row {
                resource: 7,
                part: 2,
                kind: 30,
                quantity: 1,
            },
        ],
        rate: 50,
        quantity: 300_000,
        cents: 2,
    },
    QuoteExample {
        name: "one segment",
        charge: Charge::BidSegment,
        concession: None,
        rows: &[Row {
            resource: 7,
            part: 0,
            kind: 30,
            quantity: 1,
        }],
        rate: 50,
        quantity: 100_000,
        cents: 1,
    },
    QuoteExample {
        name: "five segments",
        charge: Charge::BidSegment,
        concession: None,
        rows: &[
            Row {
                resource: 7,
                part: 0,
                kind: 30,
                quantity: 1,
            },
            Row {
                resource: 7,
                part: 1,
                kind: 30,
                quantity: 1,
            },
            Row {
                resource: 7,
                part: 2,
                kind: 30,
                quantity: 1,
            },
            Row {
                resource: 7,
                part: 3,
                kind: 30,
                quantity: 1,
            },
            Row {
                resource: 7,
                part: 4,
                kind: 30,
                quantity: 1,
            },
        ],
        rate: 50,
        quantity: 500_000,
        cents: 3,
    },
    QuoteExample {
        name: "TOR supply 100,000 and demand 60,000",
        charge: Charge::Tor,
        concession: None,
        rows: &[
            Row {
                resource: 0,
                part: 0,
                kind: 50,
                quantity: 100_000,
            },
            Row {
                resource: 0,
                part: 0,
                kind: 51,
                quantity: 60_000,
            },
        ],
        rate: 2700,
        quantity: 6_000_000,
        cents: 1_620,
    },
    QuoteExample {
        name: "two trade sides",
        charge: Charge::TradeFee,
        concession: None,
        rows: &[
            Row {
                resource: 7,
                part: 0,
                kind: 40,
                quantity: 0,
            },
            Row {
                resource: 7,
                part: 1,
                kind: 40,
                quantity: 25,
            },
        ],
        rate: 100,
        quantity: 200_000,
        cents: 2,
    },
];
