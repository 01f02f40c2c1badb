ghost use Rattle.std.specs.Prelude.{◌≡◌, true};
ghost use Rattle.stores.specs.Index.{index_in_range};
ghost use Rattle.cas.specs.Worker.{
  WorkerViewInRange,
  answers,
  at_end,
  goes_on,
  loads,
  put_load_head,
  put_store_slot,
  put_store_tail,
  stays,
  storing,
  take_load_head,
  take_load_slot,
  take_store_tail,
  take_swap_head,
  take_tail_past_head,
  take_tail_to_head,
  worker_in_range,
  worker_move,
  worker_runs,
};

use stores::{Index, Maker, StoreKind};
use terms::Outcome;

// The worker's call in progress: one case for each step that is next, with what that step and later ones use.
#[derive(Clone, Copy)]
pub enum WorkerCall {
    // No call runs.
    Idle,
    // Put, step 1, with the task's number: load head.
    PutLoadHead(u32),
    // Put, step 2, with the task's number: store the task in its slot.
    PutStoreSlot(u32),
    // Put, step 3: store the raised tail.
    PutStoreTail,
    // Take, step 1: store the lowered tail.
    TakeStoreTail,
    // Take, step 2, with the lowered tail t: load head.
    TakeLoadHead(Index),
    // Take, step 3 where t is above head: load the slot.
    TakeLoadSlot(Index),
    // Take, step 3 where t is below the head h that was loaded: store h as the tail.
    TakeTailToHead(Index),
    // Take, step 3 where t is head: store the tail past it.
    TakeTailPastHead(Index),
    // Take, step 4 where t was head: swap head from t to the index past it.
    TakeSwapHead(Index),
    // Take, step 5 where the swap was won: load the slot.
    TakeLoadLastSlot(Index),
}

// What the worker sees at an entry of its own. That it is in range is a `requires` of its steps and no ghost field: definitions make a view of any machine, in range or not.
#[derive(Clone, Copy)]
pub struct WorkerView {
    // Its call in progress.
    pub call: WorkerCall,
    // How many slots there are.
    pub slots: u32,
    // The tail, past its own pending stores.
    pub tail: Index,
    pub head: Index,
    // Whether another store may be pending.
    pub room: bool,
    // Whether no store is.
    pub drained: bool,
    // The task in the slot that the step loads from; 0 where it loads from none.
    pub loaded: u32,
}

// What the entry does: the store that it makes, head and the call after it, and its outcome.
#[derive(Clone, Copy)]
pub struct WorkerMove {
    pub push: Option<(Maker, StoreKind)>,
    pub head: Index,
    pub call: WorkerCall,
    pub outcome: Outcome,
}

impl WorkerCall {
    // Whether every index that the call holds is in range.
    pub(crate) fn in_range(self) -> bool
        ensures { result ≡ worker_in_range self }
    {
        match self {
            WorkerCall::Idle
            | WorkerCall::PutLoadHead(_)
            | WorkerCall::PutStoreSlot(_)
            | WorkerCall::PutStoreTail
            | WorkerCall::TakeStoreTail => true,
            WorkerCall::TakeLoadHead(t)
            | WorkerCall::TakeTailToHead(t)
            | WorkerCall::TakeTailPastHead(t)
            | WorkerCall::TakeSwapHead(t) => t.in_range(),
            WorkerCall::TakeLoadSlot(t) | WorkerCall::TakeLoadLastSlot(t) => t.slot_in_range(),
        }
    }

    // Whether a call runs.
    pub(crate) fn runs(self) -> bool
        ensures { result ≡ worker_runs self }
    {
        !matches!(self, WorkerCall::Idle)
    }

    // From which slot the next step loads.
    pub(crate) fn loads(self) -> Option<Index>
        ensures { result ≡ loads self }
    {
        match self {
            WorkerCall::Idle
            | WorkerCall::PutLoadHead(_)
            | WorkerCall::PutStoreSlot(_)
            | WorkerCall::PutStoreTail
            | WorkerCall::TakeStoreTail
            | WorkerCall::TakeLoadHead(_)
            | WorkerCall::TakeTailToHead(_)
            | WorkerCall::TakeTailPastHead(_)
            | WorkerCall::TakeSwapHead(_) => None,
            WorkerCall::TakeLoadSlot(t) | WorkerCall::TakeLoadLastSlot(t) => Some(t),
        }
    }
}

impl WorkerView {
    // Refused: all stays as it is.
    pub(crate) fn stays(self, outcome: Outcome) -> WorkerMove
        ensures { result ≡ stays outcome self }
    {
        WorkerMove {
            push: None,
            head: self.head,
            call: self.call,
            outcome,
        }
    }

    // The call goes on: this step is next.
    pub(crate) fn goes_on(self, call: WorkerCall) -> WorkerMove
        ensures { result ≡ goes_on call self }
    {
        WorkerMove {
            push: None,
            head: self.head,
            call,
            outcome: Outcome::Moved,
        }
    }

    // The call ends with this answer.
    fn answers(self, outcome: Outcome) -> WorkerMove
        ensures { result ≡ answers outcome self }
    {
        WorkerMove {
            push: None,
            head: self.head,
            call: WorkerCall::Idle,
            outcome,
        }
    }

    // A store is made, for which there must be room.
    pub(crate) fn stores(
        self,
        made: Option<(Maker, StoreKind)>,
        outcome: Outcome,
        call: WorkerCall,
    ) -> WorkerMove
        ensures { result ≡ storing made outcome call self }
    {
        if self.room {
            return WorkerMove {
                push: made,
                head: self.head,
                call,
                outcome,
            };
        }
        self.stays(Outcome::Wait)
    }

    // Whether the tail has its greatest value.
    fn at_end(self) -> bool
        ensures { result ≡ at_end self }
    {
        let end = Index { at: 2147483647 };
        self.tail.at_most(end) & end.at_most(self.tail)
    }

    // Put, step 1: load head. The put ends here if the tail is at its end or every slot is taken.
    fn put_load_head(self, task: u32) -> WorkerMove
        requires { WorkerViewInRange self }
        ensures { result ≡ put_load_head task self }
    {
        if self.at_end() {
            return self.answers(Outcome::End);
        }
        if self.tail.is_above_by(self.head, self.slots) {
            return self.answers(Outcome::Full);
        }
        self.goes_on(WorkerCall::PutStoreSlot(task))
    }

    // Put, step 2: store the task at the tail's index.
    fn put_store_slot(self, task: u32) -> WorkerMove
        ensures { result ≡ put_store_slot task self }
    {
        self.stores(
            Some((Maker::APut, StoreKind::Slot(task, self.tail))),
            Outcome::Moved,
            WorkerCall::PutStoreTail,
        )
    }

    // Put, step 3: store the raised tail.
    fn put_store_tail(self) -> WorkerMove
        requires { WorkerViewInRange self }
        ensures { result ≡ put_store_tail self }
    {
        self.stores(
            Some((Maker::APut, StoreKind::Tail(self.tail.next()))),
            Outcome::Stored,
            WorkerCall::Idle,
        )
    }

    // Take, step 1: store the lowered tail.
    fn take_store_tail(self) -> WorkerMove
        requires { WorkerViewInRange self }
        ensures { result ≡ take_store_tail self }
    {
        let t = self.tail.previous();
        self.stores(
            Some((Maker::ATake, StoreKind::Tail(t))),
            Outcome::Moved,
            WorkerCall::TakeLoadHead(t),
        )
    }

    // Take, step 2: load head. The slot is next if t is above it; else the tail is put back, to head or, if t is head, past it.
    fn take_load_head(self, t: Index) -> WorkerMove
        ensures { result ≡ take_load_head t self }
    {
        let head = self.head;
        if !t.at_most(head) {
            return self.goes_on(WorkerCall::TakeLoadSlot(t));
        }
        if head.at_most(t) {
            return self.goes_on(WorkerCall::TakeTailPastHead(t));
        }
        self.goes_on(WorkerCall::TakeTailToHead(head))
    }

    // Take, step 3 where t is below head: store head as the tail, and answer.
    fn take_tail_to_head(self, h: Index) -> WorkerMove
        ensures { result ≡ take_tail_to_head h self }
    {
        self.stores(
            Some((Maker::ATake, StoreKind::Tail(h))),
            Outcome::Empty,
            WorkerCall::Idle,
        )
    }

    // Take, step 3 where t is head: store the tail past it.
    fn take_tail_past_head(self, t: Index) -> WorkerMove
        requires { index_in_range t ≡ true }
        ensures { result ≡ take_tail_past_head t self }
    {
        self.stores(
            Some((Maker::ATake, StoreKind::Tail(t.next()))),
            Outcome::Moved,
            WorkerCall::TakeSwapHead(t),
        )
    }

    // Take, step 4: swap head from t to the index past it, with nothing pending. The slot is next if head was still t; else a thief has the task.
    fn take_swap_head(self, t: Index) -> WorkerMove
        requires { index_in_range t ≡ true }
        ensures { result ≡ take_swap_head t self }
    {
        let head = self.head;
        if !self.drained {
            return self.stays(Outcome::Wait);
        }
        if t.at_most(head) & head.at_most(t) {
            return WorkerMove {
                push: None,
                head: t.next(),
                call: WorkerCall::TakeLoadLastSlot(t),
                outcome: Outcome::Moved,
            };
        }
        self.answers(Outcome::Empty)
    }

    // Take, step 3 where t is above head, and step 5 where the swap was won: load the slot.
    fn take_load_slot(self) -> WorkerMove
        ensures { result ≡ take_load_slot self }
    {
        self.answers(Outcome::Task(self.loaded))
    }
}

// What the next step of the worker's call does.
pub(crate) fn worker_move(view: WorkerView) -> WorkerMove
    requires { WorkerViewInRange view }
    ensures { result ≡ worker_move view.call view }
{
    match view.call {
        WorkerCall::Idle => view.stays(Outcome::Place),
        WorkerCall::PutLoadHead(task) => view.put_load_head(task),
        WorkerCall::PutStoreSlot(task) => view.put_store_slot(task),
        WorkerCall::PutStoreTail => view.put_store_tail(),
        WorkerCall::TakeStoreTail => view.take_store_tail(),
        WorkerCall::TakeLoadHead(t) => view.take_load_head(t),
        WorkerCall::TakeLoadSlot(_) | WorkerCall::TakeLoadLastSlot(_) => view.take_load_slot(),
        WorkerCall::TakeTailToHead(h) => view.take_tail_to_head(h),
        WorkerCall::TakeTailPastHead(t) => view.take_tail_past_head(t),
        WorkerCall::TakeSwapHead(t) => view.take_swap_head(t),
    }
}
