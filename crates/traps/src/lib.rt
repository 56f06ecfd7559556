// Tightness (part 8 of the rules) and the traps (part 7). There is no code here: specs/ has the impostors, and the
// machine with one of its rules broken; proofs/ has what shuts each of them out.
#![tactic(auto)]
