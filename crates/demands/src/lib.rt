// The three demands on the calls, stated in specs and proved, each as one theorem; and wrong readers that the calls' relations rule out. No function.
#![tactic(auto)]
