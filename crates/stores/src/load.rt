ghost use Rattle.std.specs.Prelude.{◌≡◌};
ghost use Rattle.stores.specs.Load.{memory_load, worker_load};

use crate::index::{Index, slot_of};
use crate::store_buffer::StoreBuffer;

// What memory has in the slot of an index, of so many slots. A slot beyond the array holds 0.
pub fn memory_load(memory: [u32; 256], slots: u32, index: Index) -> u32
    ensures { result ≡ memory_load slots memory index }
{
    let slot = slot_of(index, slots);
    if slot < 256 {
        return memory[slot];
    }
    0
}

// What the worker loads from the slot of an index: the newest pending store to it, or what memory has there.
pub fn worker_load(memory: [u32; 256], buffer: StoreBuffer, slots: u32, index: Index) -> u32
    ensures { result ≡ worker_load slots memory buffer index }
{
    let slot = slot_of(index, slots);
    buffer.newest_in_slot(slots, slot, memory_load(memory, slots, index))
}
