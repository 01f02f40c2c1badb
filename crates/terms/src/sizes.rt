ghost use Rattle.std.specs.Prelude.{◌≡◌, cond};
ghost use Rattle.terms.specs.Refusal.{Refuses};
ghost use Rattle.terms.specs.Sizes.{check_sizes, enough_margin, margin_in_use, needed_margin, refusal_in_sizes, sizes_have, sizes_in_range, within};

// The first six sizes of a schedule, as its file has them. The margin may be 0 here; `margin_in_use` says what that is.
#[derive(Clone, Copy, Debug, PartialEq, Eq)]
pub struct Sizes {
    // How many slots memory has. (W in Morrison and Afek.)
    pub slots: u32,
    // How many stores may be pending. (Their S.)
    pub buffer: u32,
    // How many stores that are no take's there are at least between the beginnings of two takes. (Their x.)
    pub spacing: u32,
    // A thief steals only where the tail that it sees is more than this far beyond the head that it loaded. 0 stands for
    // the buffer size. (Their delta.)
    pub margin: u32,
    // How many thieves there are.
    pub thieves: u32,
    // What head and tail are at first.
    pub start: u32,
}

// The margin that a buffer of this size needs where takes are spaced so far apart: as many of their stores can be
// pending at once. The quotient is rounded up.
pub fn needed_margin(buffer: u32, spacing: u32) -> u32
    ensures { result ≡ needed_margin buffer spacing }
{
    let apart = spacing as u64 + 1;
    (buffer as u64).div_ceil(apart) as u32
}

// Whether a number is neither below the least nor above the greatest.
pub fn within(least: u32, greatest: u32, n: u32) -> bool
    ensures { result ≡ within least greatest n }
{
    (least..=greatest).contains(&n)
}

impl Sizes {
    // The margin that the thieves keep.
    pub fn margin_in_use(self) -> u32
        ensures { result ≡ margin_in_use self }
    {
        let margin = self.margin;
        if margin == 0 { self.buffer } else { margin }
    }

    // Whether the margin that the thieves keep is at least the needed one.
    pub fn enough_margin(self) -> bool
        ensures { result ≡ enough_margin self }
    {
        needed_margin(self.buffer, self.spacing) <= self.margin_in_use()
    }

    // The place of the first size that is out of its range, counted from 0, if one is.
    pub fn check(self) -> Option<usize>
        ensures value { result ≡ check_sizes self }
        ensures refuses { Refuses (sizes_have self) (refusal_in_sizes result) }
    {
        let kept = [
            within(2, 256, self.slots),
            within(1, 64, self.buffer),
            within(0, 63, self.spacing),
            within(0, 64, self.margin),
            within(1, 8, self.thieves),
            within(0, 2147483647, self.start),
        ];
        kept.iter().position(|&kept| !kept)
    }

    // Whether every size is in its range.
    pub fn in_range(self) -> bool
        ensures { result ≡ sizes_in_range self }
    {
        self.check().is_none()
    }
}
