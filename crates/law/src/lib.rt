// The statement (specs): what a lawful tournament is, which byte strings spell one, and what every call answers. Its means and theorems (proofs). No function.
#![tactic(auto)]
