// The table of played examples, each proved of the definitions by computation. It has no code.
#![tactic(auto)]
