ghost use Rattle.std.specs.Prelude.{◌≡◌};
ghost use Rattle.cas.specs.Moves.{thief_entry, worker_entry};
ghost use Rattle.cas.specs.Thief.{ThiefViewInRange};
ghost use Rattle.cas.specs.Worker.{WorkerViewInRange};

use crate::thief::{ThiefCall, ThiefMove, ThiefView, thief_move};
use crate::worker::{WorkerCall, WorkerMove, WorkerView, worker_move};
use stores::{Maker, StoreKind};
use terms::{Entry, Outcome};

// What an entry of the worker's does, by whether a take would be too early.
pub(crate) fn worker_entry(view: WorkerView, entry: Entry, early: bool) -> WorkerMove
    requires { WorkerViewInRange view }
    ensures { result ≡ worker_entry early entry view }
{
    let call = view.call;
    match entry {
        Entry::WorkerStep => worker_move(view),
        Entry::ClientStore | Entry::BeginPut(_) | Entry::BeginTake if call.runs() => {
            view.stays(Outcome::Place)
        }
        Entry::ClientStore => {
            let made = Some((Maker::TheClient, StoreKind::Client));
            view.stores(made, Outcome::Moved, call)
        }
        Entry::BeginPut(task) => view.goes_on(WorkerCall::PutLoadHead(task)),
        Entry::BeginTake if early => view.stays(Outcome::Early),
        Entry::BeginTake => view.goes_on(WorkerCall::TakeStoreTail),
        Entry::Drain | Entry::BeginSteal(_) | Entry::ThiefStep(_) => view.stays(Outcome::Wait),
    }
}

// What an entry of a thief's does, from what that thief sees.
pub(crate) fn thief_entry(view: ThiefView, entry: Entry) -> ThiefMove
    requires { ThiefViewInRange view }
    ensures { result ≡ thief_entry entry view }
{
    match entry {
        Entry::ThiefStep(_) => thief_move(view),
        Entry::BeginSteal(_) if matches!(view.call, ThiefCall::Idle) => {
            view.goes_on(ThiefCall::StealLoadHead)
        }
        Entry::BeginSteal(_) => view.stays(Outcome::Place),
        Entry::Drain
        | Entry::ClientStore
        | Entry::BeginPut(_)
        | Entry::BeginTake
        | Entry::WorkerStep => view.stays(Outcome::Wait),
    }
}
