// Laws for proofs that walk the code by hand, and no code: what is owned, statement by statement, of plain data behind a `&mut`.
//
// - what such a proof is made of, for any plain data (`proofs/Laws/Walk.antt`);
// - tallies and outcomes are plain data (`proofs/Laws/Tally.antt`).
//
// The functions of this repository are proved without them, so nothing depends on this crate.
#![tactic(auto)]
