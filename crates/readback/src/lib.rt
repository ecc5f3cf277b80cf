// What we write reads back as the same message: definitions and laws, and no code.
//   specs/ReadBack.antt        octets read as a message; the messages that octets can say
//   specs/Said.antt            what the elements of a message say
//   specs/Replies.antt         the replies whose values fit their octets; SETUP with an offer's body as a message
//   proofs/Octets.antt         lists of octets
//   proofs/Walked.antt         the walk over elements that were written
//   proofs/ReadBack.antt       the octets of every well-formed message read as that message
//   proofs/WriteBack.antt      elements that were read from octets are written as those octets
//   proofs/MessageBack.antt    and so is a whole message
//   proofs/Sent.antt           every reply, and SETUP with an offer's body: well-formed, read back, at most 1,024 octets
//   proofs/Said.antt           what the controller's readers find in the octets of a message, and in each that we send
//   proofs/Examples.antt       messages of document 01
// Assumes nothing.
#![tactic(auto)]
