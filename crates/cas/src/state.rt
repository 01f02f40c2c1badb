ghost use Rattle.std.specs.Prelude.{◌≡◌};
ghost use Rattle.cas.specs.Machine.{fresh, in_range, look, memory_loads, worker_loads};

use crate::thief::{Thief, ThiefCall};
use crate::worker::WorkerCall;
use stores::{Index, Look, Spacing, StoreBuffer, all_in_range, memory_load, worker_load};
use terms::Sizes;

// The worker.
#[derive(Clone, Copy)]
pub struct Worker {
    // Its call in progress.
    pub call: WorkerCall,
}

// The whole state of a rehearsal. An operation takes it and hands the next one back.
#[derive(Clone, Copy)]
pub struct Machine {
    // The sizes that it was made with; nothing changes them.
    pub sizes: Sizes,
    // Memory: the slots, of which the first `sizes.slots` are in use. An index lies in the slot that is its remainder.
    pub slots: [u32; 256],
    // Memory: the index of the oldest task. A swap raises it, and nothing puts it back.
    pub head: Index,
    // Memory: the index past the newest task, as far as the worker's stores to it have drained.
    pub tail: Index,
    // The worker's stores that have not reached memory.
    pub buffer: StoreBuffer,
    // What the spacing rule goes by: the stores that count, made since the last take began.
    pub spacing: Spacing,
    // The worker, with its call in progress.
    pub worker: Worker,
    // The thieves, of which the first `sizes.thieves` are there, each with its call in progress.
    pub thieves: [Thief; 8],
}

// What an operation hands back.
pub type Done = stores::Done<Machine>;

impl Machine {
    // One look at the machine, with one scan of its pending stores. The worker's call and the thieves are handed in, as copies that the caller goes on with.
    pub(crate) fn look(self, call: WorkerCall, thieves: [Thief; 8]) -> Look
        requires { (call ≡ self.worker.call) × (thieves ≡ self.thieves) }
        ensures { result ≡ look self }
    {
        let calls = call.in_range() & all_in_range(&thieves);
        Look::at(
            self.sizes,
            self.head,
            self.tail,
            self.buffer,
            self.spacing,
            calls,
        )
    }

    // Whether sizes, number of pending stores, spacing count and every index are in range.
    pub fn in_range(self) -> bool
        ensures { result ≡ in_range self }
    {
        self.look(self.worker.call, self.thieves).ranged
    }

    // What a thief's step loads: 0 where it loads from no slot.
    pub(crate) fn memory_loads(self, load: Option<Index>) -> u32
        ensures { result ≡ memory_loads self load }
    {
        match load {
            None => 0,
            Some(index) => memory_load(self.slots, self.sizes.slots, index),
        }
    }

    // What the worker's step loads: 0 where it loads from no slot.
    pub(crate) fn worker_loads(self, load: Option<Index>) -> u32
        ensures { result ≡ worker_loads self load }
    {
        match load {
            None => 0,
            Some(index) => worker_load(self.slots, self.buffer, self.sizes.slots, index),
        }
    }

    // The machine of these sizes before the first entry.
    pub fn fresh(sizes: Sizes) -> Machine
        ensures { result ≡ fresh sizes }
    {
        let start = Index::from(sizes.start);
        let idle = Thief {
            call: ThiefCall::Idle,
        };
        // As in `StoreBuffer::empty`, a store at a place that the compiler does not know.
        let mut thieves = [idle; 8];
        thieves[sizes.thieves as usize % 8] = idle;
        Machine {
            sizes,
            slots: [0; 256],
            head: start,
            tail: start,
            buffer: StoreBuffer::empty(sizes.buffer),
            spacing: Spacing::no_take(),
            worker: Worker {
                call: WorkerCall::Idle,
            },
            thieves,
        }
    }
}
