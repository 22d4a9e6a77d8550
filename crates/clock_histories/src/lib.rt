// What any list of questions to one cursor comes to: no code, laws only.
#![tactic(auto)]
