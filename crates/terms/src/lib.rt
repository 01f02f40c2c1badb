// The terms that the libraries above share: the papers' tables, as plain data with total functions. They are the sizes of a
// schedule, its entries, the outcomes of an entry, why a file is refused, and the totals of a run, in the papers' numbers.
// No function here asks anything of its caller. Reading order:
//
// - `sizes`: the six sizes of a schedule, their ranges, and the margin;
// - `entry`: the seven kinds of entry, whose entry each is, and which thief it names;
// - `outcome`: the outcome of an entry, with its number and value in a trace, and whether it is a refusal;
// - `refusal`: why a file is refused, with number and place;
// - `kinds`: the entry that a kind byte and its operand mean, or why it is refused;
// - `tally`: how many entries had each of three outcomes; an outcome is counted by value, or in a tally that is lent.
#![tactic(auto)]

mod entry;
mod kinds;
mod outcome;
mod refusal;
mod sizes;
mod tally;

pub use entry::Entry;
pub use kinds::entry_of;
pub use outcome::{Outcome, is_answer};
pub use refusal::Refusal;
pub use sizes::{Sizes, needed_margin, within};
pub use tally::{Tally, count_outcome};
