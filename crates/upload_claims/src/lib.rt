// What is claimed of lists of an upload's calls: definitions and claims alone.
#![tactic(auto)]
