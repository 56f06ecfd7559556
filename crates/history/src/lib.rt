// Demand 3, over every history of calls. There is no code here: specs/Demand3.antt states it over the definitions that
// the calls' contracts cite, specs/Ledger.antt keeps the ledger from the history alone, and proofs/ has the proof.
#![tactic(auto)]
