ghost use Rattle.std.specs.Prelude.{◌≡◌, ◌≤◌, ◌<◌, length};
ghost use Rattle.stores.specs.StoreBuffer.{
  drop_oldest_or_same,
  empty_buffer,
  lowers_tail,
  newest_in_slot,
  oldest,
  pending,
  push_in_range,
  push_lowers_tail,
  push_or_same,
  pushed_or_same,
  scan,
  scanned,
  slot_after,
  slots_after,
  store_in_range,
  tail_after,
};

use crate::index::{Index, slot_of};

// What a store writes to, with the value if it has one.
#[derive(Clone, Copy)]
pub enum StoreKind {
    // The client's own memory, which the machine does not have: the value is 0 and goes nowhere.
    Client,
    // The tail becomes this index.
    Tail(Index),
    // The task of this number, in the slot in which this index lies. With the number first a store has 16 bytes, not 24.
    Slot(u32, Index),
}

// A store that the worker has made.
#[derive(Clone, Copy)]
pub struct Store {
    pub kind: StoreKind,
}

// Who makes a store.
#[derive(Clone, Copy)]
pub enum Maker {
    // The program around the queue.
    TheClient,
    // A put of the worker's.
    APut,
    // A take of the worker's.
    ATake,
}

// The stores that the worker has made and that have not reached memory, oldest first.
#[derive(Clone, Copy)]
pub struct StoreBuffer {
    // 01 names this form, an array with a count. The pending stores stand in the first `count` cells. A machine's own operations keep the client store in the
    // others, so that equal buffers have equal cells.
    pub stores: [Store; 64],
    // How many are pending; where that is more than there are cells, all cells are.
    pub count: usize,
}

// What dropping the oldest store of a buffer hands back.
#[derive(Clone, Copy)]
pub struct Dropped {
    // The store that has been pending longest; what the first cell holds, where none is pending.
    pub oldest: Store,
    // The buffer without it; as it was, where none is pending or more than there are cells.
    pub left: StoreBuffer,
}

// What one pass over the pending stores finds.
#[derive(Clone, Copy)]
pub struct Scan {
    // Whether each is in range.
    pub ranged: bool,
    // The tail as the worker loads it.
    pub tail: Index,
    // How many are stores of take step 1: of the worker's stores these alone lower the tail.
    pub takes: u32,
}

impl StoreKind {
    // Whether a machine may have it pending.
    pub fn in_range(self) -> bool
        ensures { result ≡ store_in_range self }
    {
        match self {
            StoreKind::Client => true,
            StoreKind::Tail(tail) => tail.in_range(),
            StoreKind::Slot(_, index) => index.slot_in_range(),
        }
    }

    // Whether the store lowers the tail, from what was there.
    pub fn lowers_tail(self, tail: Index) -> bool
        ensures { result ≡ lowers_tail tail self }
    {
        match self {
            StoreKind::Client => false,
            StoreKind::Tail(index) => !tail.at_most(index),
            StoreKind::Slot(_, _) => false,
        }
    }

    // What the store leaves at the tail, from what was there.
    pub fn tail_after(self, tail: Index) -> Index
        ensures { result ≡ tail_after tail self }
    {
        match self {
            StoreKind::Client | StoreKind::Slot(_, _) => tail,
            StoreKind::Tail(index) => index,
        }
    }

    // What the store leaves in so many slots, from what was there. A slot beyond the array is not there.
    pub fn slots_after(self, count: u32, mut slots: [u32; 256]) -> [u32; 256]
        ensures { result ≡ slots_after count slots self }
    {
        if let StoreKind::Slot(task, index) = self {
            let slot = slot_of(index, count);
            if slot < 256 {
                slots[slot] = task;
            }
        }
        slots
    }

    // What the store leaves in this slot, from what was there.
    pub fn slot_after(self, slots: u32, slot: usize, value: u32) -> u32
        ensures { result ≡ slot_after slots slot value self }
    {
        match self {
            StoreKind::Client | StoreKind::Tail(_) => return value,
            StoreKind::Slot(task, index) => {
                let reached = slot_of(index, slots);
                if reached == slot {
                    return task;
                }
                return value;
            }
        }
    }
}

impl Scan {
    // After one store more.
    fn after(self, kind: StoreKind) -> Scan
        requires { self.takes < 64 }
        ensures { result ≡ scanned self kind }
    {
        let tail = self.tail;
        let takes = self.takes;
        // Nothing of what follows is so of a client store, and the loop over a full buffer is the dearest of all.
        if let StoreKind::Client = kind {
            return Scan {
                ranged: self.ranged,
                tail: tail,
                takes: takes,
            };
        }
        let ranged = self.ranged & kind.in_range();
        if kind.lowers_tail(tail) {
            return Scan {
                ranged: ranged,
                tail: kind.tail_after(tail),
                takes: takes + 1,
            };
        }
        Scan {
            ranged: ranged,
            tail: kind.tail_after(tail),
            takes: takes,
        }
    }
}

// Whether the store that an entry makes, if it makes one, may be pending.
pub fn push_in_range(made: Option<(Maker, StoreKind)>) -> bool
    ensures { result ≡ push_in_range made }
{
    match made {
        None => true,
        Some((_, kind)) => kind.in_range(),
    }
}

// Whether it lowers the tail, from what the worker loads.
pub fn push_lowers_tail(made: Option<(Maker, StoreKind)>, tail: Index) -> bool
    ensures { result ≡ push_lowers_tail tail made }
{
    match made {
        None => false,
        Some((_, kind)) => kind.lowers_tail(tail),
    }
}

impl StoreBuffer {
    // With no store pending, in a machine that lets so many be.
    pub fn empty(buffer: u32) -> StoreBuffer
        ensures { result ≡ empty_buffer }
    {
        let client = Store {
            kind: StoreKind::Client,
        };
        // A store at a place that the compiler does not know keeps it from splitting the array into its cells (`docs/ARCHITECTURE.md`, "Where a run's time goes").
        let mut stores = [client; 64];
        stores[buffer as usize % 64] = client;
        StoreBuffer { stores, count: 0 }
    }

    // The pending stores, oldest first.
    fn pending(&self) -> &[Store]
        ensures value { result.now ≡ pending self.now }
        ensures few { length result.now ≤ 64 }
    {
        &self.stores[..self.count.min(64)]
    }

    // One pass over the pending stores, from memory's tail on.
    pub fn scan(self, tail: Index) -> Scan
        ensures { result ≡ scan tail self }
    {
        let mut found = Scan {
            ranged: true,
            tail,
            takes: 0,
        };
        for store in self.pending() {
            found = found.after(store.kind);
        }
        found
    }

    // What the worker loads from this slot, from what memory has there.
    pub fn newest_in_slot(self, slots: u32, slot: usize, value: u32) -> u32
        ensures { result ≡ newest_in_slot slots slot value self }
    {
        self.pending().iter().fold(
            value,
            |newest, store| store.kind.slot_after(slots, slot, newest),
        )
    }

    // Without the oldest, which is handed back beside: the others move a cell to the front, and the cell that becomes free holds the client store.
    pub fn drop_oldest(self) -> Dropped
        ensures { result ≡ record { oldest = oldest self; left = drop_oldest_or_same self } }
    {
        let count = self.count;
        let mut stores = self.stores;
        let first = stores[0];
        let kind = first.kind;
        let oldest = Store { kind };
        let mut left = count;
        if (0 < count) & (count <= 64) {
            let mut i: usize = 1;
            while i < count {
                let store = stores[i];
                stores[i - 1] = store;
                i += 1;
            }
            left = count - 1;
            stores[left] = Store {
                kind: StoreKind::Client,
            };
        }
        Dropped {
            oldest: oldest,
            left: StoreBuffer {
                stores: stores,
                count: left,
            },
        }
    }

    // With one more store, the newest, if a cell is free.
    pub fn push(self, store: Store) -> StoreBuffer
        ensures { result ≡ push_or_same store self }
    {
        let at = self.count;
        let mut stores = self.stores;
        let mut count = at;
        if at < 64 {
            stores[at] = store;
            count = at + 1;
        }
        StoreBuffer {
            stores: stores,
            count: count,
        }
    }

    // With the store that an entry makes, if it makes one and a cell is free.
    pub fn pushed(self, made: Option<(Maker, StoreKind)>) -> StoreBuffer
        ensures { result ≡ pushed_or_same made self }
    {
        if let Some((_, kind)) = made {
            return self.push(Store { kind });
        }
        self
    }
}
