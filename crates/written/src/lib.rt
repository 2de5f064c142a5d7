// Proofs alone: what the writer's bytes spell. For each lawful tournament they are one of its spellings, so 18 over files says that no lawful tournament has the reading. No function.
#![tactic(auto)]
