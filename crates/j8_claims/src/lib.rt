// What is claimed of the C functions: demand 3 of lists of their calls, what one writes and another reads, and TSV8 in the caller's buffers; definitions and claims, no code.
#![tactic(auto)]
