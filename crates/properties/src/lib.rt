// What else is true of every run: theorems about the machine's definitions, and no code.
//
// - no task is lost or given twice, said of the machine alone (`specs/ExactlyOnce.antt`, with computed accounts in `specs/Accounts.antt`);
// - no step depends on a task's number (`specs/Renumbering.antt`);
// - how many steps a call has (`specs/CallLength.antt`);
// - when a take is too early, by what a reader of entries and outcomes counts (`specs/TakesApart.antt`);
// - how far memory lags behind the worker at most (`specs/Hidden.antt`), and that the stores which are counted there are those of take step 1 (`specs/TakeStores.antt`).
#![tactic(auto)]
