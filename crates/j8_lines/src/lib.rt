// The J8 Lines definition, and lists of an upload's calls held to it: definitions and laws.
#![tactic(auto)]
