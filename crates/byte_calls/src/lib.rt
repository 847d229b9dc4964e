// What an exported call and start do to numbers and bytes, and the theorem over whole lists of them: specs/ states it, proofs/ proves it.
#![tactic(auto)]
