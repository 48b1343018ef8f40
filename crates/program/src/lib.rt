// No code: what the program answers to an input, line by line, and that reading, decoding and stepping give it.
#![tactic(auto)]
