// The first element of a list that passes a test: definitions and laws, and no code.
//   specs/First.antt       where the first element is, what it is, and the list with it changed
//   proofs/First.antt      what its place says of a change, and what a change leaves as it was
// Assumes nothing.
#![tactic(auto)]
