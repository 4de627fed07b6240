// The machine that all searches share: a first-in first-out queue that corrects labels.
//
// The crate has no code. specs/ defines the machine, its walks and what a net has to satisfy; proofs/
// has the laws that hold of every such net: it ends within the square, it holds the least sums, and
// it is determined. A net that tries idle steps too, or whose labels hold more, makes the same search
// (proofs/Simulation.antt).
#![tactic(auto)]
