ghost use Rattle.std.specs.Prelude.{◌≡◌, true};
ghost use Rattle.stores.specs.Index.{index_in_range};
ghost use Rattle.cas.specs.Thief.{
  ThiefViewInRange,
  answers,
  goes_on,
  loads,
  stays,
  steal_load_tail,
  steal_swap_head,
  thief_in_range,
  thief_move,
};

use stores::{InRange, Index};
use terms::Outcome;

// A thief's call in progress: one case for each step that is next, with what that step and later ones use.
#[derive(Clone, Copy)]
pub enum ThiefCall {
    // No call runs.
    Idle,
    // Steal, step 1: load head.
    StealLoadHead,
    // Steal, step 2, with the head h that was loaded: load tail, and decide.
    StealLoadTail(Index),
    // Steal, step 3, with h: load the slot.
    StealLoadSlot(Index),
    // Steal, step 4, with the number that was loaded and h: swap head from h to the index past it.
    StealSwapHead(u32, Index),
}

// A thief.
#[derive(Clone, Copy)]
pub struct Thief {
    // Its call in progress.
    pub call: ThiefCall,
}

// What a thief sees at an entry of its own.
#[derive(Clone, Copy)]
pub struct ThiefView {
    // Its call in progress.
    pub call: ThiefCall,
    // Memory's head and tail.
    pub head: Index,
    pub tail: Index,
    // The margin in use.
    pub margin: u32,
    // The task in the slot that the step loads from; 0 where it loads from none.
    pub loaded: u32,
}

// What the entry does: head and call after it, and its outcome.
#[derive(Clone, Copy)]
pub struct ThiefMove {
    pub head: Index,
    pub call: ThiefCall,
    pub outcome: Outcome,
}

impl InRange for Thief {
    ghost ranged = { λ thief. thief_in_range thief.call };

    // Whether every index that the call holds is in range.
    fn in_range(self) -> bool {
        match self.call {
            ThiefCall::Idle | ThiefCall::StealLoadHead => true,
            ThiefCall::StealLoadTail(h) | ThiefCall::StealSwapHead(_, h) => h.in_range(),
            ThiefCall::StealLoadSlot(h) => h.slot_in_range(),
        }
    }
}

impl ThiefCall {
    // From which slot the next step loads.
    pub(crate) fn loads(self) -> Option<Index>
        ensures { result ≡ loads self }
    {
        match self {
            ThiefCall::Idle
            | ThiefCall::StealLoadHead
            | ThiefCall::StealLoadTail(_)
            | ThiefCall::StealSwapHead(_, _) => None,
            ThiefCall::StealLoadSlot(h) => Some(h),
        }
    }
}

impl ThiefView {
    // Refused: all stays as it is.
    pub(crate) fn stays(self, outcome: Outcome) -> ThiefMove
        ensures { result ≡ stays outcome self }
    {
        ThiefMove {
            head: self.head,
            call: self.call,
            outcome,
        }
    }

    // The call goes on: this step is next.
    pub(crate) fn goes_on(self, call: ThiefCall) -> ThiefMove
        ensures { result ≡ goes_on call self }
    {
        ThiefMove {
            head: self.head,
            call,
            outcome: Outcome::Moved,
        }
    }

    // The call ends with this answer.
    fn answers(self, outcome: Outcome) -> ThiefMove
        ensures { result ≡ answers outcome self }
    {
        ThiefMove {
            head: self.head,
            call: ThiefCall::Idle,
            outcome,
        }
    }

    // Steal, step 2: load tail. The steal ends here if no task is above h, or not by more than the margin.
    fn steal_load_tail(self, h: Index) -> ThiefMove
        requires { (index_in_range h ≡ true) × (index_in_range self.tail ≡ true) }
        ensures { result ≡ steal_load_tail h self }
    {
        if self.tail.at_most(h) {
            return self.answers(Outcome::Empty);
        }
        if h.is_below_by_more(self.tail, self.margin) {
            return self.goes_on(ThiefCall::StealLoadSlot(h));
        }
        self.answers(Outcome::Abort)
    }

    // Steal, step 4: swap head from h to the index past it. The task is the thief's if head was still h; else the call starts over.
    fn steal_swap_head(self, task: u32, h: Index) -> ThiefMove
        requires { index_in_range h ≡ true }
        ensures { result ≡ steal_swap_head task h self }
    {
        let head = self.head;
        if h.at_most(head) & head.at_most(h) {
            return ThiefMove {
                head: h.next(),
                call: ThiefCall::Idle,
                outcome: Outcome::Task(task),
            };
        }
        self.goes_on(ThiefCall::StealLoadHead)
    }
}

// What the next step of a thief's call does.
pub(crate) fn thief_move(view: ThiefView) -> ThiefMove
    requires { ThiefViewInRange view }
    ensures { result ≡ thief_move view.call view }
{
    match view.call {
        ThiefCall::Idle => view.stays(Outcome::Place),
        ThiefCall::StealLoadHead => view.goes_on(ThiefCall::StealLoadTail(view.head)),
        ThiefCall::StealLoadTail(h) => view.steal_load_tail(h),
        ThiefCall::StealLoadSlot(h) => view.goes_on(ThiefCall::StealSwapHead(view.loaded, h)),
        ThiefCall::StealSwapHead(task, h) => view.steal_swap_head(task, h),
    }
}
