// The situations of the rules (part 6) and two more, as one table. There is no code here: specs/ has the table and the
// test that a situation comes about, proofs/ the one theorem that all of them do.
#![tactic(auto)]
