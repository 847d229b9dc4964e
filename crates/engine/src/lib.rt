// What a call on the driver service comes to: the definitions of start and the calls, the book and the theorems stand in specs, and
// their proofs in proofs.
#![tactic(auto)]
