// What assembly writes is a tidy timing: the clock, the lookups and SM stops take its lists. It has no code.
#![tactic(auto)]
