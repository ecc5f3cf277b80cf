// How each pair stands, told from the history since a start or a reload: definitions and laws, and no code.
//   specs/History.antt       the ways of a pair, what an event does to them, and the statement
//   proofs/Standing.antt     how a pair stands in a table
//   proofs/Expiry.antt       what a second T308 expiry does
//   proofs/Restarting.antt   what a user's RESTART does, and an acknowledge of ours
//   proofs/Marks.antt        what an accepted event does to the pairs out of service
//   proofs/Doubts.antt       and to the pairs in doubt
//   proofs/Steps.antt        one event
//   proofs/History.antt      lists of events
// Assumes nothing.
#![tactic(auto)]
