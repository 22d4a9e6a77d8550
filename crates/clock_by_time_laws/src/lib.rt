// What a reader expects of the beat of a time. It has no code.
#![tactic(auto)]
