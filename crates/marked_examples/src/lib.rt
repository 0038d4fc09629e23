// Document 01's marked examples and the programs that it shuts out by name, computed from the definitions. No code stands here.
#![tactic(auto)]
