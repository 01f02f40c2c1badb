use machine::{ThiefCall, WorkerCall};
use stores::{Holder, Index, StoreKind};
use terms::Entry;

// Which of several things something is, and the index and the number that it holds, each 0 if it holds none.
#[derive(Clone, Copy)]
pub(crate) struct Tagged(pub(crate) u32, pub(crate) Index, pub(crate) u32);

const NONE: Index = Index { at: 0 };

// The entry of a kind. Nothing is refused: the operations take any thief's number.
impl From<Tagged> for Entry {
    fn from(Tagged(kind, _, operand): Tagged) -> Entry {
        match kind {
            0 => Entry::Drain,
            1 => Entry::ClientStore,
            2 => Entry::BeginPut(operand),
            3 => Entry::BeginTake,
            4 => Entry::WorkerStep,
            5 => Entry::BeginSteal(operand),
            _ => Entry::ThiefStep(operand),
        }
    }
}

impl From<Entry> for Tagged {
    fn from(entry: Entry) -> Tagged {
        match entry {
            Entry::Drain => Tagged(0, NONE, 0),
            Entry::ClientStore => Tagged(1, NONE, 0),
            Entry::BeginPut(task) => Tagged(2, NONE, task),
            Entry::BeginTake => Tagged(3, NONE, 0),
            Entry::WorkerStep => Tagged(4, NONE, 0),
            Entry::BeginSteal(thief) => Tagged(5, NONE, thief),
            Entry::ThiefStep(thief) => Tagged(6, NONE, thief),
        }
    }
}

// Who holds the lock has one number: thieves are counted from 2. (Functions, since `From` may not be written between two types of other crates.)
pub(crate) fn holder_of(number: u64) -> Holder {
    match number {
        0 => Holder::Nobody,
        1 => Holder::TheWorker,
        _ => Holder::TheThief(((number - 2) % 4294967296) as u32),
    }
}

pub(crate) fn number_of(holder: Holder) -> u64 {
    match holder {
        Holder::Nobody => 0,
        Holder::TheWorker => 1,
        Holder::TheThief(thief) => 2 + u64::from(thief),
    }
}

impl From<Tagged> for StoreKind {
    fn from(Tagged(tag, index, task): Tagged) -> StoreKind {
        match tag {
            0 => StoreKind::Client,
            1 => StoreKind::Tail(index),
            _ => StoreKind::Slot(task, index),
        }
    }
}

impl From<StoreKind> for Tagged {
    fn from(kind: StoreKind) -> Tagged {
        match kind {
            StoreKind::Client => Tagged(0, NONE, 0),
            StoreKind::Tail(index) => Tagged(1, index, 0),
            StoreKind::Slot(task, index) => Tagged(2, index, task),
        }
    }
}

impl From<Tagged> for WorkerCall {
    fn from(Tagged(tag, index, task): Tagged) -> WorkerCall {
        match tag {
            0 => WorkerCall::Idle,
            1 => WorkerCall::PutLoadHead(task),
            2 => WorkerCall::PutStoreSlot(task),
            3 => WorkerCall::PutStoreTail,
            4 => WorkerCall::TakeStoreTail,
            5 => WorkerCall::TakeLoadHead(index),
            6 => WorkerCall::TakeLoadSlot(index),
            7 => WorkerCall::TakeLock(index),
            8 => WorkerCall::TakeReloadHead(index),
            9 => WorkerCall::TakeRestoreTail(index),
            10 => WorkerCall::TakeUnlockEmpty,
            11 => WorkerCall::TakeUnlockTask(index),
            _ => WorkerCall::TakeLoadLastSlot(index),
        }
    }
}

impl From<WorkerCall> for Tagged {
    fn from(call: WorkerCall) -> Tagged {
        match call {
            WorkerCall::Idle => Tagged(0, NONE, 0),
            WorkerCall::PutLoadHead(task) => Tagged(1, NONE, task),
            WorkerCall::PutStoreSlot(task) => Tagged(2, NONE, task),
            WorkerCall::PutStoreTail => Tagged(3, NONE, 0),
            WorkerCall::TakeStoreTail => Tagged(4, NONE, 0),
            WorkerCall::TakeLoadHead(t) => Tagged(5, t, 0),
            WorkerCall::TakeLoadSlot(t) => Tagged(6, t, 0),
            WorkerCall::TakeLock(t) => Tagged(7, t, 0),
            WorkerCall::TakeReloadHead(t) => Tagged(8, t, 0),
            WorkerCall::TakeRestoreTail(t) => Tagged(9, t, 0),
            WorkerCall::TakeUnlockEmpty => Tagged(10, NONE, 0),
            WorkerCall::TakeUnlockTask(t) => Tagged(11, t, 0),
            WorkerCall::TakeLoadLastSlot(t) => Tagged(12, t, 0),
        }
    }
}

impl From<Tagged> for ThiefCall {
    fn from(Tagged(tag, index, task): Tagged) -> ThiefCall {
        match tag {
            0 => ThiefCall::Idle,
            1 => ThiefCall::StealLock,
            2 => ThiefCall::StealLoadHead,
            3 => ThiefCall::StealRaiseHead(index),
            4 => ThiefCall::StealLoadTail(index),
            5 => ThiefCall::StealLoadSlot(index),
            6 => ThiefCall::StealUnlockTask(task),
            7 => ThiefCall::StealRestoreHead(index),
            _ => ThiefCall::StealUnlockAbort,
        }
    }
}

impl From<ThiefCall> for Tagged {
    fn from(call: ThiefCall) -> Tagged {
        match call {
            ThiefCall::Idle => Tagged(0, NONE, 0),
            ThiefCall::StealLock => Tagged(1, NONE, 0),
            ThiefCall::StealLoadHead => Tagged(2, NONE, 0),
            ThiefCall::StealRaiseHead(h) => Tagged(3, h, 0),
            ThiefCall::StealLoadTail(h) => Tagged(4, h, 0),
            ThiefCall::StealLoadSlot(h) => Tagged(5, h, 0),
            ThiefCall::StealUnlockTask(task) => Tagged(6, NONE, task),
            ThiefCall::StealRestoreHead(h) => Tagged(7, h, 0),
            ThiefCall::StealUnlockAbort => Tagged(8, NONE, 0),
        }
    }
}
