// What a node table means and the text of that: definitions and claims alone.
#![tactic(auto)]
