// Proofs alone: which answers and tables are the reading of a lawful tournament, said of their cells. No function.
#![tactic(auto)]
