// The three demands, proved of the definitions: a file for each in proofs/, and the laws behind it. No code stands here.
#![tactic(auto)]
