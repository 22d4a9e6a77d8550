// What is true of the lists that the walk of SM timing writes: their order, their sizes, and the charts of an incident. It has no code.
#![tactic(auto)]
