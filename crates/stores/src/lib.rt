// What a work-stealing queue on a machine with late stores is made of, whichever queue it is: positions, the lock, the worker's store
// buffer, and what is loaded and tested of them. Nothing here knows a step of any queue, and nothing asks anything of its caller: out of range an operation hands back what it was
// given, or 0, or false. Reading order:
//
// - `index`: a position of the queue, a signed number that never wraps; the slot in which it lies; its neighbours and distances;
// - `lock`: the lock, and who holds it;
// - `store_buffer`: a store, who makes it, what it leaves in memory, and the stores that have not reached memory, with what one pass over them finds;
// - `spacing`: how far takes are kept apart, and whose stores do so;
// - `load`: what the parties load from a slot;
// - `look`: what an operation has to know of a machine first, by one pass over the pending stores: whether all is in range, the worker's tail,
//   and how far memory lags; and how far it lags after an entry;
// - `in_range`: what a machine may hold only where every index in it is in range, and whether each of several is;
// - `done`: what an operation hands back, of whichever machine;
// - `operations`: a machine's operations, of which each machine says what `obey` does.
#![tactic(auto)]

mod done;
mod in_range;
mod index;
mod load;
mod lock;
mod look;
mod operations;
mod spacing;
mod store_buffer;

pub use done::Done;
pub use in_range::{InRange, all_in_range};
pub use index::{Index, slot_of};
pub use load::{memory_load, worker_load};
pub use lock::{Holder, Lock};
pub use look::Look;
pub use operations::Operations;
pub use spacing::Spacing;
pub use store_buffer::{
    Dropped, Maker, Scan, Store, StoreBuffer, StoreKind, push_in_range, push_lowers_tail,
};
