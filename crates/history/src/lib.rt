// No code: what holds of a register after any list of calls. The definitions are in specs/, the theorems in proofs/.

#![tactic(auto)]
