// What is saved reads back as the same table, and each table has one saved form: definitions and laws, and no code.
//   specs/Roundtrip.antt       what is so of saving and reloading
//   proofs/Numbers.antt        numbers in octets, read back
//   proofs/Fields.antt         a field, and what is behind it
//   proofs/Lists.antt          the lists of start
//   proofs/Calls.antt          the calls
//   proofs/Tables.antt         the whole table
//   proofs/Doubtful.antt       the pairs in doubt
//   proofs/Kept.antt           a sound table keeps the rules
//   proofs/Roundtrip.antt      the statement, proved
// Assumes nothing.
#![tactic(auto)]
