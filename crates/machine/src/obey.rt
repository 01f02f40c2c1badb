ghost use Rattle.std.specs.Prelude.{◌≡◌, ◌<◌};
ghost use Rattle.stores.specs.StoreBuffer.{pushed_or_same, slots_after};
ghost use Rattle.machine.specs.Machine.{handing, thief_call, worker_tail};
ghost use Rattle.machine.specs.Obey.{obey};
ghost use Rattle.machine.specs.Perform.{perform_thief, thief_view, worker_view};
ghost use Rattle.machine.specs.Types.{Moved};
ghost use Rattle.machine.specs.Update.{with_buffer, with_lock, with_memory, with_spacing, with_worker};

use crate::machine::{Done, Machine, Worker};
use crate::moves::{thief_entry, worker_entry};
use crate::thief::{Thief, ThiefCall, ThiefMove, ThiefView};
use crate::worker::{WorkerCall, WorkerMove, WorkerView};
use stores::{InRange, Index, Operations, Spacing, StoreBuffer, StoreKind};
use terms::{Entry, Outcome};

// What a party sees, and one way out of `obey` for each way in which an entry changes the machine.
impl Machine {
    // What the worker sees, with its call and the tail that it loads.
    fn worker_view(self, call: WorkerCall, tail: Index) -> WorkerView
        requires { (call ≡ self.worker.call) × (tail ≡ worker_tail self) }
        ensures { result ≡ worker_view self self.worker.call }
    {
        WorkerView {
            call,
            slots: self.sizes.slots,
            tail,
            head: self.head,
            lock: self.lock,
            room: self.buffer.count < self.sizes.buffer as usize,
            drained: self.buffer.count == 0,
            loaded: self.worker_loads(call.loads()),
        }
    }

    // What the thief with this number sees, with its call.
    fn thief_view(self, thief: u32, call: ThiefCall) -> ThiefView
        requires { call ≡ thief_call self thief }
        ensures { result ≡ thief_view self thief (thief_call self thief) }
    {
        ThiefView {
            call,
            me: thief,
            head: self.head,
            tail: self.thief_tail(),
            lock: self.lock,
            margin: self.sizes.margin_in_use(),
            loaded: self.memory_loads(call.loads()),
        }
    }

    // A store has reached a slot; these are left.
    fn drained_to_slot(mut self, kind: StoreKind, left: StoreBuffer, hidden: u32) -> Done
        ensures { result ≡ handing Moved hidden (with_memory (slots_after self.sizes.slots self.slots kind) self.tail left self) }
    {
        self.slots = kind.slots_after(self.sizes.slots, self.slots);
        self.buffer = left;
        Done {
            machine: self,
            outcome: Outcome::Moved,
            hidden,
        }
    }

    // A store has reached the tail, or the client's memory; these are left.
    fn drained_to_tail(mut self, tail: Index, left: StoreBuffer, hidden: u32) -> Done
        ensures { result ≡ handing Moved hidden (with_memory self.slots tail left self) }
    {
        self.tail = tail;
        self.buffer = left;
        Done {
            machine: self,
            outcome: Outcome::Moved,
            hidden,
        }
    }

    // The worker's move is performed, with the store that it makes.
    fn worker_moved_storing(mut self, step: WorkerMove, spacing: Spacing, hidden: u32) -> Done
        ensures { result ≡ handing step.outcome hidden (with_worker step.call (with_lock step.lock.holder (with_spacing spacing (with_buffer (pushed_or_same step.push self.buffer) self)))) }
    {
        self.buffer = self.buffer.pushed(step.push);
        self.spacing = spacing;
        self.lock = step.lock;
        self.worker = Worker { call: step.call };
        Done {
            machine: self,
            outcome: step.outcome,
            hidden,
        }
    }

    // The worker's move is performed, which makes no store.
    fn worker_moved(mut self, step: WorkerMove, spacing: Spacing, hidden: u32) -> Done
        ensures { result ≡ handing step.outcome hidden (with_worker step.call (with_lock step.lock.holder (with_spacing spacing self))) }
    {
        self.spacing = spacing;
        self.lock = step.lock;
        self.worker = Worker { call: step.call };
        Done {
            machine: self,
            outcome: step.outcome,
            hidden,
        }
    }

    // The move of the thief with this number is performed.
    fn thief_moved(mut self, thief: u32, step: ThiefMove, hidden: u32) -> Done
        requires { thief < 8 }
        ensures { result ≡ handing step.outcome hidden (perform_thief thief self step).machine }
    {
        self.head = step.head;
        self.lock = step.lock;
        self.thieves[thief as usize] = Thief { call: step.call };
        Done {
            machine: self,
            outcome: step.outcome,
            hidden,
        }
    }
}

impl Operations for Machine {
    ghost obeyed = { obey };

    // An entry is obeyed, whichever it is. All entries stand in one function, and each way out of it hands the machine to one that changes it in one straight line: so the compiler copies
    // only what is changed (`docs/ARCHITECTURE.md`, "Where a run's time goes").
    fn obey(mut self, entry: Entry) -> Done {
        let sizes = self.sizes;
        let call = self.worker.call;
        let thieves = self.thieves;
        let seen = self.look(call, thieves);
        let thief = entry.thief();
        if !(seen.ranged & (thief < sizes.thieves)) {
            return Done::refused(self, Outcome::Wait, seen.hidden);
        }
        match entry {
            // The oldest pending store reaches memory.
            Entry::Drain => {
                let buffer = self.buffer;
                let tail = self.tail;
                if buffer.count == 0 {
                    return Done::refused(self, Outcome::Wait, seen.hidden);
                }
                let dropped = buffer.drop_oldest();
                let kind = dropped.oldest.kind;
                let left = dropped.left;
                let hidden = seen.after_drain(tail, kind);
                if let StoreKind::Slot(_, _) = kind {
                    return self.drained_to_slot(kind, left, hidden);
                }
                return self.drained_to_tail(kind.tail_after(tail), left, hidden);
            }
            // The worker's entry is a move of its own.
            Entry::ClientStore | Entry::BeginPut(_) | Entry::BeginTake | Entry::WorkerStep => {
                let spacing = self.spacing;
                let newest = seen.tail;
                let view = self.worker_view(call, newest);
                let step = worker_entry(view, entry, spacing.too_early(sizes.spacing));
                let outcome = step.outcome;
                if outcome.is_refusal() {
                    return Done::refused(self, outcome, seen.hidden);
                }
                let made = step.push;
                let next = step.call;
                let counted = spacing.after(entry, made);
                let hidden = seen.after_store(made, counted, next.in_range());
                if made.is_some() {
                    return self.worker_moved_storing(step, counted, hidden);
                }
                return self.worker_moved(step, counted, hidden);
            }
            // The thief's entry is a move of that thief's.
            Entry::BeginSteal(_) | Entry::ThiefStep(_) => {
                let mine = thieves[thief as usize].call;
                let view = self.thief_view(thief, mine);
                let step = thief_entry(view, entry);
                let outcome = step.outcome;
                if outcome.is_refusal() {
                    return Done::refused(self, outcome, seen.hidden);
                }
                let head = step.head;
                let next = step.call;
                let moved = Thief { call: next };
                let hidden = seen.after_head(head, moved.in_range());
                return self.thief_moved(thief, step, hidden);
            }
        }
    }
}
