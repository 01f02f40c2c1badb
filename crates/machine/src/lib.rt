// The machine of the rehearsal bench: one work-stealing queue, FF-THE of Morrison and Afek, on a machine with late
// stores.
//
// One worker owns the tail end of a cyclic array of slots: it puts tasks there and takes them back, newest first. Up to
// eight thieves steal from the head end, oldest first. The worker's stores do not reach memory at once: they wait in a
// first-in, first-out store buffer, and a drain moves the oldest of them to memory. A thief sees memory alone. So a thief
// may look at a tail that the worker has long left behind, and it steals only where the tail that it sees is further
// from the head than a margin; with a margin that is large enough for the buffer and for how far takes are spaced apart,
// no task is handed out twice.
//
// Every step of every party is an entry of a schedule, and an entry is obeyed as a whole. Sizes, entries and outcomes are
// those of the library `terms`; indices, lock and store buffer those of `stores`.
//
// The queue, which knows no machine. A step is a function of what its party sees (the view), and says what the party does
// (the move): the store that it makes, head, the lock, its call after the step, and the outcome.
//
// - `worker`: the worker's calls, one case for each step that may be next, and each step of a put and of a take;
// - `thief`: a thief's calls, and each step of a steal.
//
// The machine, which shows each party its view and performs the move:
//
// - `moves`: every entry of a party as a move of it: its steps, its beginnings and the client store;
// - `machine`: memory, lock, store buffer and calls together, at first, and what the parties load;
// - `look`: what an operation has to know first (`Look`, of `stores`), with the calls: whether all is in range, the
//   worker's tail, and how far memory lags;
// - `obey`: what each party sees, how a move is performed, and `obey`, which obeys any entry. The operation of each kind of
//   entry is `obey` of that kind (`Operations`, of `stores`).
//
// An operation hands back the machine, the entry's outcome, and how far memory lags behind the worker there: how many
// stores are pending by which takes have lowered the tail.
#![tactic(auto)]

mod look;
mod machine;
mod moves;
mod obey;
mod thief;
mod worker;

pub use machine::{Done, Machine, Worker};
pub use thief::{Thief, ThiefCall};
pub use worker::WorkerCall;
