// The limits of what a call is given. There is no code here: specs/ has the definitions, which the calls and demand 3
// cite; the code that decides them is in the crate `limit_check`.
#![tactic(auto)]
