use crate::tags::{Tagged, holder_of, number_of};
use machine::{Machine, Thief, Worker};
use number::{put_bytes, word_at};
use std::array;
use stores::{Index, Lock, Spacing, Store, StoreBuffer};
use terms::Sizes;

// The image of a machine is 487 numbers of eight bytes each: six sizes, 256 slots, head, tail, who holds the lock, how many stores are
// pending, 64 stores, the spacing count, whether a take has begun, the worker's call, and the calls of eight thieves. A store and a call
// have three numbers each (`tags`), and all of them are there, whatever the sizes are.
pub(crate) const IMAGE_BYTES: usize = 3896;

const NUMBERS: usize = 487;

// The response to `o`. The image is behind its first 25 bytes.
pub(crate) type Response = [u8; 3921];

// A number of an image, by its place. (Places are below 487; the remainder lets the proof see it. In two halves: of an image that is cut, what is
// there counts.)
fn number_at(image: &[u8], place: usize) -> u64 {
    let at = 8 * (place % NUMBERS);
    u64::from(word_at(image, at)) | u64::from(word_at(image, at + 4)) << 32
}

// A number of at most 32 bits.
fn small_at(image: &[u8], place: usize) -> u32 {
    word_at(image, 8 * (place % NUMBERS))
}

// A number that is signed.
fn index_at(image: &[u8], place: usize) -> Index {
    Index {
        at: number_at(image, place).cast_signed(),
    }
}

// A store or a call.
fn tagged_at(image: &[u8], place: usize) -> Tagged {
    let at = place % NUMBERS;
    Tagged(
        small_at(image, at),
        index_at(image, at + 1),
        small_at(image, at + 2),
    )
}

// Six sizes, in the order of a file.
pub(crate) fn sizes_of([slots, buffer, spacing, margin, thieves, start]: [u32; 6]) -> Sizes {
    Sizes {
        slots,
        buffer,
        spacing,
        margin,
        thieves,
        start,
    }
}

// The machine that an image is of. (An index of `from_fn` is below the array's length; the remainders let the proof see it.)
pub(crate) fn machine_in(image: &[u8]) -> Machine {
    Machine {
        sizes: sizes_of(array::from_fn(|i| small_at(image, i))),
        slots: array::from_fn(|i| small_at(image, 6 + i % 256)),
        head: index_at(image, 262),
        tail: index_at(image, 263),
        lock: Lock {
            holder: holder_of(number_at(image, 264)),
        },
        buffer: StoreBuffer {
            stores: array::from_fn(|i| Store {
                kind: tagged_at(image, 266 + 3 * (i % 64)).into(),
            }),
            count: number_at(image, 265) as usize,
        },
        spacing: Spacing {
            count: small_at(image, 458),
            begun: small_at(image, 459) != 0,
        },
        worker: Worker {
            call: tagged_at(image, 460).into(),
        },
        thieves: array::from_fn(|i| Thief {
            call: tagged_at(image, 463 + 3 * (i % 8)).into(),
        }),
    }
}

fn put_number(response: &mut Response, place: usize, n: u64) {
    put_bytes(response, 25 + 8 * (place % NUMBERS), &n.to_le_bytes());
}

fn put_tagged(response: &mut Response, place: usize, told: Tagged) {
    let at = place % NUMBERS;
    put_number(response, at, told.0.into());
    put_number(response, at + 1, told.1.at.cast_unsigned());
    put_number(response, at + 2, told.2.into());
}

fn put_sizes(response: &mut Response, sizes: Sizes) {
    put_number(response, 0, sizes.slots.into());
    put_number(response, 1, sizes.buffer.into());
    put_number(response, 2, sizes.spacing.into());
    put_number(response, 3, sizes.margin.into());
    put_number(response, 4, sizes.thieves.into());
    put_number(response, 5, sizes.start.into());
}

// Puts the image of a machine.
pub(crate) fn put_machine(response: &mut Response, machine: &Machine) {
    put_sizes(response, machine.sizes);
    for (i, task) in machine.slots.iter().enumerate() {
        put_number(response, 6 + i, u64::from(*task));
    }
    put_number(response, 262, machine.head.at.cast_unsigned());
    put_number(response, 263, machine.tail.at.cast_unsigned());
    put_number(response, 264, number_of(machine.lock.holder));
    put_number(response, 265, machine.buffer.count as u64);
    for (i, store) in machine.buffer.stores.iter().enumerate() {
        put_tagged(response, 266 + 3 * i, store.kind.into());
    }
    put_number(response, 458, machine.spacing.count.into());
    put_number(response, 459, machine.spacing.begun.into());
    put_tagged(response, 460, machine.worker.call.into());
    for (i, thief) in machine.thieves.iter().enumerate() {
        put_tagged(response, 463 + 3 * i, thief.call.into());
    }
}
