// Demand 3, "Calls don't lean on each other": definitions and laws, and no code.
//   specs/Independence.antt     the demand, each definition under the words that it renders
//   specs/Leaning.antt          lists whose order matters
//   proofs/Deeds.antt           what a message does, as a decision and a change of the slots
//   proofs/Hearing.antt         the answer and the table that a message gets are those of its deed
//   proofs/Local.antt           what a deed leaves as it is
//   proofs/Easy.antt            CALL PROCEEDING, CONNECT, CONNECT ACKNOWLEDGE and STATUS ENQUIRY end no call
//   proofs/Commutes.antt        two messages that need not keep their order commute
//   proofs/Independence.antt    the demand, proved
//   proofs/Leaning.antt         these lists, proved
// Assumes nothing.
#![tactic(auto)]
