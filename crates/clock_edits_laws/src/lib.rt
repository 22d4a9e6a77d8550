// What edits of a timing further on leave as it was: no code, laws only.
#![tactic(auto)]
