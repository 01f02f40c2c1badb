ghost use Rattle.std.specs.Prelude.{◌≡◌, ◌&&◌, cond, ◌+◌, ltb};
ghost use Rattle.stores.specs.Look.{hidden_after_drain, hidden_after_head, hidden_after_store, hidden_if, look_at};

use crate::index::Index;
use crate::spacing::Spacing;
use crate::store_buffer::{Maker, StoreBuffer, StoreKind, push_in_range, push_lowers_tail};
use terms::Sizes;

// What one look at a machine finds, with which every operation begins. (No Option: request 4 tells a number where it is out of range, too.)
#[derive(Clone, Copy)]
pub struct Look {
    // Whether the machine is in range.
    pub ranged: bool,
    // The tail as the worker loads it.
    pub tail: Index,
    // How many stores of take step 1 are pending; 0 where the machine is out of range.
    pub hidden: u32,
}

// How many stores of take step 1 a machine has pending, as an operation tells it: 0 where it is out of range.
fn hidden_if(ranged: bool, takes: u32) -> u32
    ensures { result ≡ hidden_if ranged takes }
{
    if ranged { takes } else { 0 }
}

// .. after one more store, by whether that is of take step 1: no more than there are cells.
fn more_if(lowers: bool, takes: u32) -> u32
    ensures { result ≡ cond (lowers && ltb takes 64) (takes + 1) takes }
{
    if lowers & (takes < 64) {
        return takes + 1;
    }
    takes
}

impl Look {
    // One look at a machine with these parts, by one scan of its pending stores; `calls` tells whether every index in a call is in range.
    pub fn at(
        sizes: Sizes,
        head: Index,
        tail: Index,
        buffer: StoreBuffer,
        spacing: Spacing,
        calls: bool,
    ) -> Look
        ensures { result ≡ look_at sizes head tail buffer spacing calls }
    {
        let found = buffer.scan(tail);
        let newest = found.tail;
        let ranged = sizes.in_range()
            & (buffer.count <= sizes.buffer as usize)
            & spacing.in_range()
            & head.in_range()
            & tail.in_range()
            & found.ranged
            & calls;
        Look {
            ranged: ranged,
            tail: newest,
            hidden: hidden_if(ranged, found.takes),
        }
    }

    // How many stores of take step 1 are pending after a move of the worker's that makes this store, if it makes one, and leaves the spacing count so; `call` tells whether its call is in range then.
    pub fn after_store(self, made: Option<(Maker, StoreKind)>, spacing: Spacing, call: bool) -> u32
        ensures { result ≡ hidden_after_store made spacing call self }
    {
        let tail = self.tail;
        let ranged = spacing.in_range() & push_in_range(made) & call;
        hidden_if(ranged, more_if(push_lowers_tail(made, tail), self.hidden))
    }

    // .. after a move of a thief's that leaves head so; `call` tells whether its call is in range then.
    pub fn after_head(self, head: Index, call: bool) -> u32
        ensures { result ≡ hidden_after_head head call self }
    {
        hidden_if(head.in_range() & call, self.hidden)
    }

    // .. after the oldest store has reached memory, which had this tail before.
    pub fn after_drain(self, tail: Index, kind: StoreKind) -> u32
        ensures { result ≡ hidden_after_drain tail kind self }
    {
        let hidden = self.hidden;
        if kind.lowers_tail(tail) & (0 < hidden) {
            return hidden - 1;
        }
        hidden
    }
}
