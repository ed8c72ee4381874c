// Figures by hour, by interval or by part: they start anew wherever that field of the key changes, and are summed.
ghost use Rattle.std.specs.Prelude.{◌≡◌, ℕ};
ghost use Rattle.charges.specs.Running.{grouped};
ghost use Rattle.sheet.specs.declared.row.Row.{Row};
ghost use Rattle.charges.specs.Splits.{group_bounded};
ghost use Rattle.std.proofs.Common.{rules};

use crate::figures::Figures;
use sheet::row::Row;
use std::marker::PhantomData;

// What the closed groups came to, the group at hand and its figures; K names the field.
#[derive(Drop)]
pub struct Group<F, K> {
    pub closed: u64,
    pub current: u8,
    pub inside: F,
    pub field: PhantomData<K>,
}

#[derive(Clone, Copy, Default, PartialEq, Eq, Debug)]
pub struct ByHour;

#[derive(Clone, Copy, Default, PartialEq, Eq, Debug)]
pub struct ByInterval;

#[derive(Clone, Copy, Default, PartialEq, Eq, Debug)]
pub struct ByPart;

// A field of the key, and its least value. Each has an impl, since only code can name a field.
pub trait Field {
    ghost of: { Row → ℕ };

    ghost LEAST: { ℕ };

    const LEAST: u8;

    fn value(row: Row) -> u8
        ensures { result ≡ of row };
}

impl Field for ByHour {
    ghost of = { λ r. r.key.hour };

    ghost LEAST = { 1 };

    const LEAST: u8 = 1;

    fn value(row: Row) -> u8 {
        row.key.hour
    }
}

impl Field for ByInterval {
    ghost of = { λ r. r.key.interval };

    ghost LEAST = { 0 };

    const LEAST: u8 = 0;

    fn value(row: Row) -> u8 {
        row.key.interval
    }
}

impl Field for ByPart {
    ghost of = { λ r. r.key.part };

    ghost LEAST = { 0 };

    const LEAST: u8 = 0;

    fn value(row: Row) -> u8 {
        row.key.part
    }
}

// By hand, since the field at hand is its least value at first.
impl<F: Figures, K: Field> Default for Group<F, K> {
    ghost is_default = { λ g. g ≡ (grouped K.Field.of K.Field.LEAST F.Figures.running).start };

    fn default() -> Self {
        Group {
            closed: 0,
            current: K::LEAST,
            inside: F::default(),
            field: PhantomData,
        }
    }
}

impl<F: Figures + Drop, K: Field> Figures for Group<F, K> {
    ghost running = { grouped K.Field.of K.Field.LEAST F.Figures.running };

    ghost most = { F.Figures.most };

    ghost starts = { Prim.search rules };

    ghost low = { Prim.search rules };

    ghost bounded = { λ rs h. group_bounded _ F.Figures.running F.Figures.most F.Figures.bounded K.Field.of K.Field.LEAST rs h };

    fn add(&mut self, row: Row) {
        let value = K::value(row);
        if value != self.current {
            self.closed += self.inside.total();
            self.current = value;
            self.inside = F::default();
        }
        self.inside.add(row);
    }

    fn total(&self) -> u64 {
        self.closed + self.inside.total()
    }
}
