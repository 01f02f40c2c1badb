ghost use Rattle.std.specs.Prelude.{◌≡◌, ◌&&◌, cond, true, ◌+ℤ◌};
ghost use Rattle.std.specs.Int.Signed.{le_z};
ghost use Rattle.stores.specs.Index.{
  above_by,
  below_by_more,
  index_from,
  index_in_range,
  index_of,
  next_or_same,
  previous_or_same,
  slot_index_in_range,
  slot_of,
};

// A position of the queue: a value of head or tail, or the place of a task. It never wraps; a slot is found by its
// remainder. -1 is a true value: a take from an empty queue that starts at 0 stores it as the tail.
#[derive(Clone, Copy)]
pub struct Index {
    pub at: i64,
}

impl From<u32> for Index {
    ghost from_gives = { λ number index. index ≡ index_of number };

    fn from(number: u32) -> Index {
        Index { at: number as i64 }
    }
}

impl Index {
    // Whether it is neither below the least nor above the greatest that an index may be.
    fn in_range_from(self, least: i64) -> bool
        ensures { result ≡ index_from least self }
    {
        let at = self.at;
        (least <= at) & (at <= 2147483648)
    }

    // Whether a machine may hold it as a value of head or tail.
    pub fn in_range(self) -> bool
        ensures { result ≡ index_in_range self }
    {
        self.in_range_from(-1)
    }

    // Whether a machine may hold it in order to store to its slot, or to load it.
    pub fn slot_in_range(self) -> bool
        ensures { result ≡ slot_index_in_range self }
    {
        self.in_range_from(0)
    }

    // The index so far above, of one in range; below, where that is negative.
    fn offset(self, by: i64) -> Index
        requires { index_in_range (record { at = by }) ≡ true }
        ensures { result ≡ cond (index_in_range self) (record { at = self.at +ℤ by }) self }
    {
        if self.in_range() {
            let at = self.at;
            return Index { at: at + by };
        }
        self
    }

    // The index one above. One out of range stays as it is.
    pub fn next(self) -> Index
        ensures { result ≡ next_or_same self }
    {
        self.offset(1)
    }

    // The index one below. One out of range stays as it is.
    pub fn previous(self) -> Index
        ensures { result ≡ previous_or_same self }
    {
        self.offset(-1)
    }

    // Whether it is not above the other.
    pub fn at_most(self, other: Index) -> bool
        ensures { result ≡ le_z self.at other.at }
    {
        let at = self.at;
        let limit = other.at;
        at <= limit
    }

    // Whether it is above the other by this distance or more, both in range.
    pub fn is_above_by(self, other: Index, distance: u32) -> bool
        ensures { result ≡ (index_in_range self && index_in_range other && above_by self other distance) }
    {
        if self.in_range() & other.in_range() {
            let at = self.at;
            let from = other.at;
            return distance as i64 <= at - from;
        }
        false
    }

    // Whether it is below the other by more than this distance, both in range.
    pub fn is_below_by_more(self, other: Index, distance: u32) -> bool
        ensures { result ≡ (index_in_range self && index_in_range other && below_by_more self other distance) }
    {
        if self.in_range() & other.in_range() {
            let at = self.at;
            let above = other.at;
            return at < above - distance as i64;
        }
        false
    }
}

// The slot in which an index lies, of so many: 0 for an index below 0, and the index itself where there are no slots.
pub fn slot_of(index: Index, slots: u32) -> usize
    ensures { result ≡ slot_of slots index }
{
    let at = index.at;
    if at < 0 {
        return 0;
    }
    let place = at as usize;
    if slots == 0 {
        return place;
    }
    place % (slots as usize)
}
