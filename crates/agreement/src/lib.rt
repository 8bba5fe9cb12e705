// A receiver reports each pair that the queue gave exactly once, over a line that corrupts copies of commands and at any frame
// rate: demand 3 of the customer's letter, its limits, and the frame-rate law.
//
// This crate has no code. Its statements are in specs/, to be read first, and their proofs in proofs/.

#![tactic(auto)]
