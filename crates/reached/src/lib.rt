// The tables that are reached: definitions, and no code.
//   specs/Reached.antt     a table that a start or a reload gave, or any list of events after one
// Assumes nothing.
#![tactic(auto)]
