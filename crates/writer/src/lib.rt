// The file writer of the rehearsal bench: from a schedule in memory to its file.
//
// `write` takes six sizes and two arrays, a kind and an operand for each entry, and puts their file into memory that the caller
// lends. It checks sizes and entries as the reader does, that the arrays have one length, and that the file fits, and touches
// none of that memory unless all of it is right: a refusal says which rule is broken and where.
//
// It goes by the layout of the library `schedule`, and by its check of the sizes. What one writes the other reads, and the other
// way round (`specs/RoundTrip.antt`). Nothing here that is public asks anything of its caller. Reading order:
//
// - `entries`: the first faulty entry of two arrays;
// - `writer`: a file as a whole.
#![tactic(auto)]

mod entries;
mod writer;

pub use writer::write;
