// The second clock comes to the times and counts of the clock. It has no code.
#![tactic(auto)]
