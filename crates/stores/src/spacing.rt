ghost use Rattle.std.specs.Prelude.{◌≡◌, ◌≤◌};
ghost use Rattle.stores.specs.Spacing.{
  counted,
  counted_in_or_same,
  counts,
  no_take,
  spacing_after,
  spacing_in_range,
  take_begins,
  too_early,
};

use crate::store_buffer::{Maker, StoreKind};
use terms::Entry;

// What the spacing rule goes by. (No Option: a machine that is handed in may have a count before its first take, which `counted` says what becomes of.)
#[derive(Clone, Copy)]
pub struct Spacing {
    // The spacing count: the stores that count, made since the last take began; 0 before the first.
    pub count: u32,
    // Whether a take has begun.
    pub begun: bool,
}

impl Maker {
    // Whether its stores count.
    pub fn counts(self) -> bool
        ensures { result ≡ counts self }
    {
        match self {
            Maker::TheClient => true,
            Maker::APut => true,
            Maker::ATake => false,
        }
    }
}

impl Spacing {
    // Whether a machine may hold it.
    pub fn in_range(self) -> bool
        ensures { result ≡ spacing_in_range self }
    {
        self.count <= 4096
    }

    // After one more store that counts.
    fn counted(self) -> Spacing
        requires { self.count ≤ 4096 }
        ensures { result ≡ counted self }
    {
        let begun = self.begun;
        if begun {
            return Spacing {
                count: self.count + 1,
                begun: begun,
            };
        }
        Spacing {
            count: 0,
            begun: begun,
        }
    }

    // After the store that an entry makes, if it makes one and it counts. A count out of range stays as it is.
    pub fn counted_in(self, made: Option<(Maker, StoreKind)>) -> Spacing
        ensures { result ≡ counted_in_or_same made self }
    {
        if 4096 < self.count {
            return self;
        }
        if let Some((maker, _)) = made {
            if maker.counts() {
                return self.counted();
            }
        }
        self
    }

    // Whether a take would be too early, by this spacing.
    pub fn too_early(self, spacing: u32) -> bool
        ensures { result ≡ too_early self spacing }
    {
        self.begun & (self.count < spacing)
    }

    // Before the first take.
    pub fn no_take() -> Spacing
        ensures { result ≡ no_take }
    {
        Spacing {
            count: 0,
            begun: false,
        }
    }

    // As a take begins: the count starts anew.
    pub fn take_begins() -> Spacing
        ensures { result ≡ take_begins }
    {
        Spacing {
            count: 0,
            begun: true,
        }
    }

    // After an entry that is not refused, with the store that it makes, if it makes one.
    pub fn after(self, entry: Entry, made: Option<(Maker, StoreKind)>) -> Spacing
        ensures { result ≡ spacing_after entry made self }
    {
        if let Entry::BeginTake = entry {
            Spacing::take_begins()
        } else {
            self.counted_in(made)
        }
    }
}
