// The rehearsal bench for programs in C and in Rust: a static library of functions with C's names and calls.
//
// Each is a call of one public function of the libraries below, and answers what that function answers, as numbers: nothing
// but numbers and slices of numbers crosses. To C, a slice is two arguments, where it starts and how many elements it has, a `size_t`.
// It asks nothing of its caller beyond what a slice is: a pointer that is not null, also for no elements, to memory that is there, aligned
// for 32-bit numbers where they are such; nobody changes it meanwhile, and memory that is lent for writing shares none with
// another slice of the call.
//
// But for `rehearsal_needed_margin` each answers one number of 64 bits. Where a file is refused, its upper half is the number of
// the refusal and its lower half the place. Otherwise the upper half is 0, and the lower half is the answer. What takes
// more than that is written into memory that the caller lends, and a refusal leaves that memory as it was. Sizes and totals have
// four bytes each, the least significant first. There are six sizes; three totals, given, aborts and waits, and beside them hidden, the largest
// number of stores of take step 1 that were pending after an entry. Where fewer than their 24 or 16 bytes are lent, the file's own refusal comes
// first, then 8 ROOM, and nothing is touched.
//
// In C:
//
//     uint64_t rehearsal_read(const uint8_t *file, size_t bytes, uint8_t *sizes, size_t sizes_room);
//     uint64_t rehearsal_run(const uint8_t *file, size_t bytes, uint8_t *trace, size_t trace_room, uint8_t *totals, size_t totals_room);
//     uint64_t rehearsal_cas_run(const uint8_t *file, size_t bytes, uint8_t *trace, size_t trace_room, uint8_t *totals, size_t totals_room);
//     uint64_t rehearsal_alike(const uint8_t *first, size_t first_bytes, const uint8_t *second, size_t second_bytes);
//     uint64_t rehearsal_write(uint32_t slots, uint32_t buffer, uint32_t spacing, uint32_t margin, uint32_t thieves, uint32_t start,
//                              const uint8_t *kinds, size_t kind_count, const uint32_t *operands, size_t operand_count,
//                              uint8_t *file, size_t room);
//     uint64_t rehearsal_share_sheet(const uint8_t *file, size_t bytes, uint32_t count, uint8_t *sheet, size_t room);
//     uint32_t rehearsal_needed_margin(uint32_t buffer, uint32_t spacing);
//
// - `answer`: a refusal as one number, and numbers put into lent memory;
// - `interface`: the exported functions.
#![tactic(auto)]

mod answer;
mod interface;

pub use interface::{
    rehearsal_alike, rehearsal_cas_run, rehearsal_needed_margin, rehearsal_read, rehearsal_run,
    rehearsal_share_sheet, rehearsal_write,
};
