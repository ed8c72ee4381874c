// A row of the sheet: a key of six bytes, and a quantity in kWh.
ghost use Rattle.std.specs.Prelude.{◌≡◌, true};
ghost use Rattle.sheet.specs.Kinds.{is_kind};
ghost use Rattle.sheet.specs.Questions.{known_kind};
ghost use Rattle.sheet.specs.Rows.{key_at, key_before, of_pair};

use crate::kind::Kind;
use crate::pair::Pair;

#[derive(Clone, Copy, PartialEq, Eq, PartialOrd, Ord, Debug)]
pub struct Key {
    pub coordinator: u8,
    pub resource: u8,
    pub hour: u8,
    pub interval: u8,
    pub part: u8,
    // A byte and no `Kind`: keys go by their bytes, and one that has passed no question may hold any.
    pub kind: u8,
}

#[derive(Clone, Copy, PartialEq, Eq, Debug)]
pub struct Row {
    pub key: Key,
    pub quantity: i32,
}

impl From<[u8; 6]> for Key {
    ghost from_gives = { λ bytes key. key ≡ key_at bytes 0 };

    fn from([coordinator, resource, hour, interval, part, kind]: [u8; 6]) -> Key {
        Key {
            coordinator,
            resource,
            hour,
            interval,
            part,
            kind,
        }
    }
}

impl Key {
    // The pair that a row with the key is of.
    fn pair(&self) -> Pair
        ensures coordinator { result.coordinator ≡ self.now.coordinator }
        ensures resource { result.resource ≡ self.now.resource }
    {
        Pair {
            coordinator: usize::from(self.coordinator),
            resource: self.resource,
        }
    }

    // Whether a row with the key stands before the pair's.
    pub(crate) fn is_before(&self, pair: Pair) -> bool
        ensures { result ≡ key_before pair.coordinator pair.resource self.now }
    {
        self.pair() < pair
    }
}

impl Row {
    // What the row tells of. An accepted sheet's rows have no unknown kinds.
    #[inline(always)]
    pub fn kind(&self) -> Kind
        requires { known_kind self.now.key.kind ≡ true }
        ensures { is_kind result self.now.key.kind ≡ true }
    {
        Kind::try_from(self.key.kind).unwrap()
    }

    // The pair that the row is of.
    pub fn pair(&self) -> Pair
        ensures coordinator { result.coordinator ≡ self.now.key.coordinator }
        ensures resource { result.resource ≡ self.now.key.resource }
    {
        self.key.pair()
    }

    // Whether the row is one of the pair's.
    pub fn is_of(&self, pair: Pair) -> bool
        ensures { result ≡ of_pair pair.coordinator pair.resource self.now }
    {
        self.pair() == pair
    }
}
