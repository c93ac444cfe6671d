// What is claimed of TSV8 texts as they are read: definitions and claims alone.
#![tactic(auto)]
