// Proof kit: words and laws on lists, tests, relations that are decided, first faults and lent tables. It knows nothing of document 01. No function.
#![tactic(auto)]
