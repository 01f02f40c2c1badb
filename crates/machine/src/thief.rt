ghost use Rattle.std.specs.Prelude.{◌≡◌, true};
ghost use Rattle.stores.specs.Index.{index_in_range};
ghost use Rattle.machine.specs.Thief.{
  ThiefViewInRange,
  goes_on,
  heading,
  loads,
  stays,
  steal_load_tail,
  steal_lock,
  steal_unlock,
  thief_in_range,
  thief_move,
};

use stores::{Holder, InRange, Index, Lock};
use terms::Outcome;

// A thief's call in progress: one case for each step that is next, with what that step and later ones use.
#[derive(Clone, Copy)]
pub enum ThiefCall {
    // No call runs.
    Idle,
    // Steal, step 1: lock.
    StealLock,
    // Steal, step 2: load head.
    StealLoadHead,
    // Steal, step 3, with the head h that was loaded: raise head.
    StealRaiseHead(Index),
    // Steal, step 4, with h: load tail, and decide.
    StealLoadTail(Index),
    // Steal, step 5 where the margin is kept, with h: load the slot.
    StealLoadSlot(Index),
    // Steal, step 6 where the margin is kept, with the number that was loaded: unlock.
    StealUnlockTask(u32),
    // Steal, step 5 where the margin is not kept, with h: put head back.
    StealRestoreHead(Index),
    // Steal, step 6 where the margin is not kept: unlock.
    StealUnlockAbort,
}

// A thief.
#[derive(Clone, Copy)]
pub struct Thief {
    // Its call in progress.
    pub call: ThiefCall,
}

// What a thief sees at an entry of its own.
#[derive(Clone, Copy)]
pub struct ThiefView {
    // Its call in progress.
    pub call: ThiefCall,
    // Its number.
    pub me: u32,
    // Memory's head and tail.
    pub head: Index,
    pub tail: Index,
    pub lock: Lock,
    // The margin in use.
    pub margin: u32,
    // The task in the slot that the step loads from; 0 where it loads from none.
    pub loaded: u32,
}

// What the entry does: head, lock and call after it, and its outcome.
#[derive(Clone, Copy)]
pub struct ThiefMove {
    pub head: Index,
    pub lock: Lock,
    pub call: ThiefCall,
    pub outcome: Outcome,
}

impl InRange for Thief {
    ghost ranged = { λ thief. thief_in_range thief.call };

    // Whether every index that the call holds is in range.
    fn in_range(self) -> bool {
        match self.call {
            ThiefCall::Idle
            | ThiefCall::StealLock
            | ThiefCall::StealLoadHead
            | ThiefCall::StealUnlockTask(_)
            | ThiefCall::StealUnlockAbort => true,
            ThiefCall::StealRaiseHead(h)
            | ThiefCall::StealLoadTail(h)
            | ThiefCall::StealRestoreHead(h) => h.in_range(),
            ThiefCall::StealLoadSlot(h) => h.slot_in_range(),
        }
    }
}

impl ThiefCall {
    // From which slot the next step loads.
    pub(crate) fn loads(self) -> Option<Index>
        ensures { result ≡ loads self }
    {
        match self {
            ThiefCall::Idle
            | ThiefCall::StealLock
            | ThiefCall::StealLoadHead
            | ThiefCall::StealRaiseHead(_)
            | ThiefCall::StealLoadTail(_)
            | ThiefCall::StealUnlockTask(_)
            | ThiefCall::StealRestoreHead(_)
            | ThiefCall::StealUnlockAbort => None,
            ThiefCall::StealLoadSlot(h) => Some(h),
        }
    }
}

impl ThiefView {
    // Refused: all stays as it is.
    pub(crate) fn stays(self, outcome: Outcome) -> ThiefMove
        ensures { result ≡ stays outcome self }
    {
        ThiefMove {
            head: self.head,
            lock: self.lock,
            call: self.call,
            outcome,
        }
    }

    // Head is stored, and this step is next.
    fn heads(self, head: Index, call: ThiefCall) -> ThiefMove
        ensures { result ≡ heading head call self }
    {
        ThiefMove {
            head,
            lock: self.lock,
            call,
            outcome: Outcome::Moved,
        }
    }

    // The call goes on: this step is next.
    pub(crate) fn goes_on(self, call: ThiefCall) -> ThiefMove
        ensures { result ≡ goes_on call self }
    {
        self.heads(self.head, call)
    }

    // Steal, step 1: lock.
    fn steal_lock(self) -> ThiefMove
        ensures { result ≡ steal_lock self }
    {
        if self.lock.is_free() {
            return ThiefMove {
                head: self.head,
                lock: Lock {
                    holder: Holder::TheThief(self.me),
                },
                call: ThiefCall::StealLoadHead,
                outcome: Outcome::Moved,
            };
        }
        self.stays(Outcome::Wait)
    }

    // Steal, step 4: load tail. The slot is next if the margin is kept, else head is put back.
    fn steal_load_tail(self, h: Index) -> ThiefMove
        requires { (index_in_range h ≡ true) × (index_in_range self.tail ≡ true) }
        ensures { result ≡ steal_load_tail h self }
    {
        if h.is_below_by_more(self.tail, self.margin) {
            return self.goes_on(ThiefCall::StealLoadSlot(h));
        }
        self.goes_on(ThiefCall::StealRestoreHead(h))
    }

    // Steal, step 6: unlock, and answer.
    fn steal_unlock(self, outcome: Outcome) -> ThiefMove
        ensures { result ≡ steal_unlock outcome self }
    {
        ThiefMove {
            head: self.head,
            lock: Lock {
                holder: Holder::Nobody,
            },
            call: ThiefCall::Idle,
            outcome,
        }
    }
}

// What the next step of a thief's call does.
pub(crate) fn thief_move(view: ThiefView) -> ThiefMove
    requires { ThiefViewInRange view }
    ensures { result ≡ thief_move view.call view }
{
    match view.call {
        ThiefCall::Idle => view.stays(Outcome::Place),
        ThiefCall::StealLock => view.steal_lock(),
        ThiefCall::StealLoadHead => view.goes_on(ThiefCall::StealRaiseHead(view.head)),
        ThiefCall::StealRaiseHead(h) => view.heads(h.next(), ThiefCall::StealLoadTail(h)),
        ThiefCall::StealLoadTail(h) => view.steal_load_tail(h),
        ThiefCall::StealLoadSlot(_) => view.goes_on(ThiefCall::StealUnlockTask(view.loaded)),
        ThiefCall::StealUnlockTask(task) => view.steal_unlock(Outcome::Task(task)),
        ThiefCall::StealRestoreHead(h) => view.heads(h, ThiefCall::StealUnlockAbort),
        ThiefCall::StealUnlockAbort => view.steal_unlock(Outcome::Abort),
    }
}
