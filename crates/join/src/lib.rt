// Proofs alone: what the reader does to its tables line by line, then the closing pass and the checks over cells, is what the statement says. No function.
#![tactic(auto)]
