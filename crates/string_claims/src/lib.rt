// What is claimed of strings as they are read and written: definitions and claims alone.
#![tactic(auto)]
