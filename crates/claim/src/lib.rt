// What it is for a queue to answer as the plain queue does: linearizability, against the plain queue as sequential specification. A library of
// definitions and laws about them, and no code: the plain queue, a run watched beside it, and the claim (`specs/Linearizable.antt`). A queue on its
// machine says what the claim has to know of it (`Implementation`), and shows that its invariant is kept; the rest is proved here once.
#![tactic(auto)]
