// Whether two schedules are alike. A library above `schedule`, which reads files and runs them.
//
// Two schedules are alike when their six sizes are equal, as written in the files, and the worker and each thief get the same
// answers in the same order. Everything else may differ: the entries, their number, and what has to wait. `alike` answers
// that for the bytes of two files, or tells which of them is refused, and why. It needs no memory from its caller: it runs
// both files into traces of its own and compares what stands there, party by party.
//
// What is promised is `likeness` (`specs/Alike.antt`); that alike is equality of sizes and answers is a theorem beside it. Reading order:
//
// - `run`: a schedule that is run, and its answers compared with those in another run;
// - `likeness`: two files as a whole.
#![tactic(auto)]

mod likeness;
mod run;

pub use likeness::{RefusedFile, alike};
