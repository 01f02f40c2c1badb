// The compare-and-swap queue of the rehearsal bench: FF-CL of Morrison and Afek, on a machine with late stores.
//
// The same worker, thieves, slots and store buffer as in `machine`, and no lock. Where a thief of FF-THE locks, lifts head and
// may put it back, a thief of FF-CL looks at head and tail, loads the slot, and then raises head by one compare-and-swap: it
// has the task if head is still where it saw it, and else it starts over. The worker takes its tasks without one, but
// for the last: there it swaps too, with nothing pending. What keeps a thief from a task that the worker has taken, while the
// worker's tail is still in its store buffer, is the same margin.
//
// The queue, which knows no machine. A step is a function of what its party sees (the view), and says what the party does
// (the move): the store that it makes, head, its call after the step, and the outcome.
//
// - `worker`: the worker's calls, one case for each step that may be next, and each step of a put and of a take;
// - `thief`: a thief's calls, and each step of a steal.
//
// The machine, which shows each party its view and performs the move:
//
// - `moves`: every entry of a party as a move of it: its steps, its beginnings and the client store;
// - `state`: memory, store buffer and calls together, at first, and what the parties load;
// - `obey`: what each party sees, how a move is performed, and `obey`, which obeys any entry. The operation of each kind of
//   entry is `obey` of that kind (`Operations`, of `stores`).
//
// Types and functions have the names that they have in `machine`; what both machines are made of is in `stores`.
#![tactic(auto)]

mod moves;
mod obey;
mod state;
mod thief;
mod worker;

pub use state::{Done, Machine, Worker};
pub use thief::{Thief, ThiefCall};
pub use worker::WorkerCall;
