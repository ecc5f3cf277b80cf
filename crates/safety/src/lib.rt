// What demands 1 and 2 say of every reached table, the slips, and the small proved table: definitions and laws, and no code.
//   specs/SmallTable.antt       P1 to P8, one statement
//   specs/FixedAnswers.antt     demand 1: the table of refusal numbers, what a refusal leaves, what start accepts
//   specs/Sound.antt            what is so of every table that is reached: no pair twice, each permitted, each state with its deadline
//   specs/NoPair.antt           demand 2: cause 45 exactly
//   specs/Flags.antt            each notice with its flags, "naming exactly the slots meant"
//   specs/Slips.antt            the slips, each shut out
//   specs/Restarts.antt         document 02, R-4: what our RESTART does, by each event, and what becomes of the pairs out of service
//   proofs/                     one file for each of these; crate `demands` gathers what they prove
//   proofs/RuledOut.antt        two controllers that specs/Restarts.antt rules out
//   proofs/Doubtful.antt        what a change does to the doubts, the marks and our RESTART, one way for each kind of change; proofs/Marks.antt
//   proofs/Acts.antt            what an event does to the slots, nine ways, off which proofs/Flags.antt and proofs/Gone.antt read
//   proofs/Sound.antt           `reached_sound`, from which saving and reading back start; proofs/References.antt the width of a reference
// Assumes nothing.
#![tactic(auto)]
