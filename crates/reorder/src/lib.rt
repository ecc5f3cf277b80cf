// Steps taken in another order: definitions and laws, and no code.
//   specs/Reorder.antt     a list of messages, one after the other; an order of its positions; two steps that commute
//   proofs/Commute.antt    how commutation is shown
//   proofs/Reorder.antt    an order that keeps dependent messages in order changes no answer and no final state
// Assumes nothing.
#![tactic(auto)]
