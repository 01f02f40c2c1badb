// The upper library of the rehearsal bench: schedule files, and what comes of running them.
//
// A schedule is six sizes, which set up a machine, and a list of entries for it to obey. Its file is bytes that anybody may
// have made, so nothing is believed of them: `read` answers the sizes and the number of entries, or a refusal that says
// which rule is broken and where. Only a file that is read as a whole goes on, and there is one way through it:
//
//     read             its sizes are decoded, and its entries checked by these (`check_entries`): each once
//     kind_part,       its kinds and its operands, parts of the same bytes, so that nothing is copied
//       operand_part
//     obey_entries     from the sizes and the two parts: a summary, and the trace, if it fits the memory that is lent for it
//
// `run` goes that way, and so do the libraries above that run files; each of these functions is also there for the queue that is named (`Queue`): the compare-and-swap queue, on a machine of its own, is run over
// the same file into the same trace. `run` obeys nothing, and touches nothing of the memory that the caller lends
// for the trace, unless the file is read and the trace fits. With enough margin the answers in that trace are those of a plain queue, and its
// promise says so (`specs/Demand3.antt`). A summary has the totals, and how far memory lagged behind the worker at most: how many stores of take step 1 were pending after an
// entry, which is never more than the needed margin (`specs/Hidden.antt`). `step` is one entry of a run, to watch; `entry_at` is the entry to hand it.
//
// The reader goes by one layout (`specs/Format.antt`), and so does the writer, the library `writer`, which shares the check of the
// sizes and the lengths of a file's parts. Sizes, entries with their kinds, outcomes, refusals and totals are those of the
// library `terms`. No public function asks anything of its caller. Reading order:
//
// - `check`: the check of the sizes;
// - `layout`: the lengths of a file's parts, and of the longest trace;
// - `entries`: the first faulty entry, and the entry to obey;
// - `reader`: a file as a whole, and its two parts;
// - `queue`: which queue a machine is the machine of;
// - `runner`: one step, the entries of two parts, and a file run with its trace.
#![tactic(auto)]

mod check;
mod entries;
mod layout;
mod queue;
mod reader;
mod runner;

pub use check::check_ranges;
pub use entries::{check_entries, entry_at};
pub use layout::{ENTRY_BYTES, LONGEST_TRACE, SIZES_BYTES};
pub use reader::{kind_part, operand_part, read, refusal_of};
pub use runner::{Queue, Stepped, Summary, obey_entries, obey_entries_on, run, run_on, step};
