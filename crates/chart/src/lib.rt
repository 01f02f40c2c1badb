// The chart of needed margins, for the planner: the margin that each buffer size from 1 to 64 needs at each spacing from 0 to 63, as
// constants. (Request 6.)
//
// Each of the 4,096 agrees with the division by which `terms` has the needed margin (`specs/Chart.antt`). Nothing here asks
// anything of its caller.
//
// - `margins`: the constants, the chart as a whole, and one margin looked up in it.
#![tactic(auto)]

mod margins;

pub use margins::{NEEDED_MARGINS, chart, charted_margin};
