// 01's worked lines, computed on the model. No code.

#![tactic(auto)]
