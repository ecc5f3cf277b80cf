// Everything that an event can do, walked once: definitions and proofs, and no code.
//   specs/Tables.antt      what is said of a table
//   specs/Effects.antt     what an event decides, whichever event it is
//   proofs/Verdicts.antt   everything that can be decided of a live call
//   proofs/View.antt       everything that an event can decide
// A request that adds an event, a message or a fate edits the views; what is proved of all events asks the views.
// Assumes nothing.
#![tactic(auto)]
