ghost use Rattle.std.specs.Prelude.{◌≡◌, true};
ghost use Rattle.stores.specs.Index.{index_in_range};
ghost use Rattle.machine.specs.Worker.{
  WorkerViewInRange,
  answers,
  at_end,
  goes_on,
  loads,
  locking,
  put_load_head,
  put_store_slot,
  put_store_tail,
  stays,
  storing,
  take_load_head,
  take_load_slot,
  take_lock,
  take_reload_head,
  take_restore_tail,
  take_store_tail,
  take_unlock_empty,
  take_unlock_task,
  worker_in_range,
  worker_move,
  worker_runs,
};

use stores::{Holder, Index, Lock, Maker, StoreKind};
use terms::Outcome;

// The worker's call in progress: one case for each step that is next, with what that step and later ones use.
#[derive(Clone, Copy)]
pub enum WorkerCall {
    // No call runs.
    Idle,
    // Put, step 1, with the task's number: load head.
    PutLoadHead(u32),
    // Put, step 2, with the task's number: store the task in its slot.
    PutStoreSlot(u32),
    // Put, step 3: store the raised tail.
    PutStoreTail,
    // Take, step 1: store the lowered tail.
    TakeStoreTail,
    // Take, step 2, with the lowered tail t: load head.
    TakeLoadHead(Index),
    // Take, step 3 where t is at or above head: load the slot.
    TakeLoadSlot(Index),
    // Take, step 3 where t is below head: lock.
    TakeLock(Index),
    // Take, step 4: load head again.
    TakeReloadHead(Index),
    // Take, step 5 where the task is gone: store the old tail.
    TakeRestoreTail(Index),
    // Take, step 6 where the task is gone: unlock.
    TakeUnlockEmpty,
    // Take, step 5 where the task is still there: unlock.
    TakeUnlockTask(Index),
    // Take, step 6 where the task is still there: load the slot.
    TakeLoadLastSlot(Index),
}

// What the worker sees at an entry of its own. That it is in range is a `requires` of its steps and no ghost field: definitions make a view of any machine, in range or not.
#[derive(Clone, Copy)]
pub struct WorkerView {
    // Its call in progress.
    pub call: WorkerCall,
    // How many slots there are.
    pub slots: u32,
    // The tail, past its own pending stores.
    pub tail: Index,
    pub head: Index,
    pub lock: Lock,
    // Whether another store may be pending.
    pub room: bool,
    // Whether no store is.
    pub drained: bool,
    // The task in the slot that the step loads from; 0 where it loads from none.
    pub loaded: u32,
}

// What the entry does: the store that it makes, the lock and the call after it, and its outcome.
#[derive(Clone, Copy)]
pub struct WorkerMove {
    pub push: Option<(Maker, StoreKind)>,
    pub lock: Lock,
    pub call: WorkerCall,
    pub outcome: Outcome,
}

impl WorkerCall {
    // Whether every index that the call holds is in range.
    pub(crate) fn in_range(self) -> bool
        ensures { result ≡ worker_in_range self }
    {
        match self {
            WorkerCall::Idle
            | WorkerCall::PutLoadHead(_)
            | WorkerCall::PutStoreSlot(_)
            | WorkerCall::PutStoreTail
            | WorkerCall::TakeStoreTail
            | WorkerCall::TakeUnlockEmpty => true,
            WorkerCall::TakeLoadHead(t)
            | WorkerCall::TakeLock(t)
            | WorkerCall::TakeReloadHead(t)
            | WorkerCall::TakeRestoreTail(t) => t.in_range(),
            WorkerCall::TakeLoadSlot(t)
            | WorkerCall::TakeUnlockTask(t)
            | WorkerCall::TakeLoadLastSlot(t) => t.slot_in_range(),
        }
    }

    // Whether a call runs.
    pub(crate) fn runs(self) -> bool
        ensures { result ≡ worker_runs self }
    {
        !matches!(self, WorkerCall::Idle)
    }

    // From which slot the next step loads.
    pub(crate) fn loads(self) -> Option<Index>
        ensures { result ≡ loads self }
    {
        match self {
            WorkerCall::Idle
            | WorkerCall::PutLoadHead(_)
            | WorkerCall::PutStoreSlot(_)
            | WorkerCall::PutStoreTail
            | WorkerCall::TakeStoreTail
            | WorkerCall::TakeLoadHead(_)
            | WorkerCall::TakeLock(_)
            | WorkerCall::TakeReloadHead(_)
            | WorkerCall::TakeRestoreTail(_)
            | WorkerCall::TakeUnlockEmpty
            | WorkerCall::TakeUnlockTask(_) => None,
            WorkerCall::TakeLoadSlot(t) | WorkerCall::TakeLoadLastSlot(t) => Some(t),
        }
    }
}

impl WorkerView {
    // Refused: all stays as it is.
    pub(crate) fn stays(self, outcome: Outcome) -> WorkerMove
        ensures { result ≡ stays outcome self }
    {
        WorkerMove {
            push: None,
            lock: self.lock,
            call: self.call,
            outcome,
        }
    }

    // The call goes on: this step is next.
    pub(crate) fn goes_on(self, call: WorkerCall) -> WorkerMove
        ensures { result ≡ goes_on call self }
    {
        WorkerMove {
            push: None,
            lock: self.lock,
            call,
            outcome: Outcome::Moved,
        }
    }

    // The call ends with this answer.
    fn answers(self, outcome: Outcome) -> WorkerMove
        ensures { result ≡ answers outcome self }
    {
        WorkerMove {
            push: None,
            lock: self.lock,
            call: WorkerCall::Idle,
            outcome,
        }
    }

    // A store is made, for which there must be room.
    pub(crate) fn stores(
        self,
        made: Option<(Maker, StoreKind)>,
        outcome: Outcome,
        call: WorkerCall,
    ) -> WorkerMove
        ensures { result ≡ storing made outcome call self }
    {
        if self.room {
            return WorkerMove {
                push: made,
                lock: self.lock,
                call,
                outcome,
            };
        }
        self.stays(Outcome::Wait)
    }

    // The lock changes hands, for which something must be met.
    fn locks(self, met: bool, holder: Holder, outcome: Outcome, call: WorkerCall) -> WorkerMove
        ensures { result ≡ locking met holder outcome call self }
    {
        if met {
            return WorkerMove {
                push: None,
                lock: Lock { holder },
                call,
                outcome,
            };
        }
        self.stays(Outcome::Wait)
    }

    // Whether the tail has its greatest value.
    fn at_end(self) -> bool
        ensures { result ≡ at_end self }
    {
        let end = Index { at: 2147483647 };
        self.tail.at_most(end) & end.at_most(self.tail)
    }

    // Put, step 1: load head. The put ends here if the tail is at its end or the slots are filled.
    fn put_load_head(self, task: u32) -> WorkerMove
        requires { WorkerViewInRange self }
        ensures { result ≡ put_load_head task self }
    {
        if self.at_end() {
            return self.answers(Outcome::End);
        }
        if self.tail.is_above_by(self.head, self.slots - 1) {
            return self.answers(Outcome::Full);
        }
        self.goes_on(WorkerCall::PutStoreSlot(task))
    }

    // Put, step 2: store the task at the tail's index.
    fn put_store_slot(self, task: u32) -> WorkerMove
        ensures { result ≡ put_store_slot task self }
    {
        self.stores(
            Some((Maker::APut, StoreKind::Slot(task, self.tail))),
            Outcome::Moved,
            WorkerCall::PutStoreTail,
        )
    }

    // Put, step 3: store the raised tail.
    fn put_store_tail(self) -> WorkerMove
        requires { WorkerViewInRange self }
        ensures { result ≡ put_store_tail self }
    {
        self.stores(
            Some((Maker::APut, StoreKind::Tail(self.tail.next()))),
            Outcome::Stored,
            WorkerCall::Idle,
        )
    }

    // Take, step 1: store the lowered tail.
    fn take_store_tail(self) -> WorkerMove
        requires { WorkerViewInRange self }
        ensures { result ≡ take_store_tail self }
    {
        let t = self.tail.previous();
        self.stores(
            Some((Maker::ATake, StoreKind::Tail(t))),
            Outcome::Moved,
            WorkerCall::TakeLoadHead(t),
        )
    }

    // Take, step 2: load head. The slot is next if head is not above t, else the lock.
    fn take_load_head(self, t: Index) -> WorkerMove
        ensures { result ≡ take_load_head t self }
    {
        if self.head.at_most(t) {
            return self.goes_on(WorkerCall::TakeLoadSlot(t));
        }
        self.goes_on(WorkerCall::TakeLock(t))
    }

    // Take, step 3 where t is below head: lock.
    fn take_lock(self, t: Index) -> WorkerMove
        ensures { result ≡ take_lock t self }
    {
        self.locks(
            self.lock.is_free() & self.drained,
            Holder::TheWorker,
            Outcome::Moved,
            WorkerCall::TakeReloadHead(t),
        )
    }

    // Take, step 4: load head again. The tail is put back next if head is still above t, else the lock is freed.
    fn take_reload_head(self, t: Index) -> WorkerMove
        requires { index_in_range t ≡ true }
        ensures { result ≡ take_reload_head t self }
    {
        if t.next().at_most(self.head) {
            return self.goes_on(WorkerCall::TakeRestoreTail(t));
        }
        self.goes_on(WorkerCall::TakeUnlockTask(t))
    }

    // Take, step 5 where the task is gone: store the old tail.
    fn take_restore_tail(self, t: Index) -> WorkerMove
        requires { index_in_range t ≡ true }
        ensures { result ≡ take_restore_tail t self }
    {
        self.stores(
            Some((Maker::ATake, StoreKind::Tail(t.next()))),
            Outcome::Moved,
            WorkerCall::TakeUnlockEmpty,
        )
    }

    // Take, step 6 where the task is gone: unlock.
    fn take_unlock_empty(self) -> WorkerMove
        ensures { result ≡ take_unlock_empty self }
    {
        self.locks(
            self.drained,
            Holder::Nobody,
            Outcome::Empty,
            WorkerCall::Idle,
        )
    }

    // Take, step 5 where the task is still there: unlock.
    fn take_unlock_task(self, t: Index) -> WorkerMove
        ensures { result ≡ take_unlock_task t self }
    {
        self.locks(
            self.drained,
            Holder::Nobody,
            Outcome::Moved,
            WorkerCall::TakeLoadLastSlot(t),
        )
    }

    // Take, step 3 where t is at or above head, and step 6 where the task is still there: load the slot.
    fn take_load_slot(self) -> WorkerMove
        ensures { result ≡ take_load_slot self }
    {
        self.answers(Outcome::Task(self.loaded))
    }
}

// What the next step of the worker's call does.
pub(crate) fn worker_move(view: WorkerView) -> WorkerMove
    requires { WorkerViewInRange view }
    ensures { result ≡ worker_move view.call view }
{
    match view.call {
        WorkerCall::Idle => view.stays(Outcome::Place),
        WorkerCall::PutLoadHead(task) => view.put_load_head(task),
        WorkerCall::PutStoreSlot(task) => view.put_store_slot(task),
        WorkerCall::PutStoreTail => view.put_store_tail(),
        WorkerCall::TakeStoreTail => view.take_store_tail(),
        WorkerCall::TakeLoadHead(t) => view.take_load_head(t),
        WorkerCall::TakeLoadSlot(_) | WorkerCall::TakeLoadLastSlot(_) => view.take_load_slot(),
        WorkerCall::TakeLock(t) => view.take_lock(t),
        WorkerCall::TakeReloadHead(t) => view.take_reload_head(t),
        WorkerCall::TakeRestoreTail(t) => view.take_restore_tail(t),
        WorkerCall::TakeUnlockEmpty => view.take_unlock_empty(),
        WorkerCall::TakeUnlockTask(t) => view.take_unlock_task(t),
    }
}
