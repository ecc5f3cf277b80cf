// What must be certain, gathered: definitions and laws, and no code. The theorems, of proofs/Demands.antt:
//   demand_one       DemandOne: every event and every start has its one answer, refusals by their numbers; a refusal sends and changes nothing
//   demand_two       DemandTwo: what every event sends reads back as the message that was meant; no pair twice; 45 exactly
//   demand_three     DemandThree: calls do not lean on each other, and three lists of two messages that may not change places
//   small_table      SmallTable: P1 to P8
//   slips            SlipsShutOut: the slips of document 01
// They cite crates safety, readback and independence, and of this one proofs/Sent.antt:
//   every_reply_reads_back, every_reply_is_octets, every_reply_is_short
// The statements are in specs/Demands.antt and specs/Sent.antt. Assumes nothing.
#![tactic(auto)]
