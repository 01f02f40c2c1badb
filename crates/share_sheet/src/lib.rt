// The share sheet of a design: which party planned which block. A library above `schedule`, which reads files and runs them.
//
// A design has up to 255 blocks, counted from 1, and its schedule puts each once at most. `share_sheet` runs the schedule and writes, into
// memory that the caller lends, for each block the party that was given it and the entry that answered TASK:
//
//     the count                    one byte
//     for each block, its party    one byte: 0 for the worker, 1 + i for thief i, 255 for a block that was not given
//     for each block, its entry    four bytes, the least significant first; 0 for a block that was not given
//
// It makes no sheet of a schedule whose margin is short, or that begins to put what is no block, or a block twice; then a refusal says which
// rule is broken and where, and none of the lent memory is touched. Of every other schedule no two entries claim one place of the sheet: its
// promise says so, by demand 3 (`specs/Given.antt`). The schedule is run once, into a trace of its own. Reading order:
//
// - `accepted`: a file that was read;
// - `blocks`: the first begin put of what is no block, or of a block that is used;
// - `shares`: what a trace says of each block;
// - `sheet`: the sheet as a whole.
#![tactic(auto)]

mod accepted;
mod blocks;
mod shares;
mod sheet;

pub use sheet::share_sheet;
