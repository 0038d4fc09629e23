// The laws of the walk and of the station judged, proved of the definitions. No code stands here.
#![tactic(auto)]
