// The warps that assembly writes are counted by one pass: laws.
#![tactic(auto)]
