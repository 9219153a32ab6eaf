// This crate has no code. Its specs/ set out the certificate of document 01 and its neighbours as a table of books with what comes of
// each, and its proofs/ show that every row is right.
#![tactic(auto)]
