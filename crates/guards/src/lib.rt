// Proofs alone: rows and laws that guard rules of the statement, each of which a slip in a definition would break. No function.
#![tactic(auto)]
