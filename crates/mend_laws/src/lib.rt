// A mended list on its way through assembly to where notes are drawn: laws.
#![tactic(auto)]
