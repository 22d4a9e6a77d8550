// Definitions that go by tests, and the rules by which `search` answers code that makes the same tests. It has no code.
#![tactic(auto)]
