// The starred marked rows of document 01, as one table: specs/Rows.antt states it, proofs/Rows.antt proves it.
#![tactic(auto)]
