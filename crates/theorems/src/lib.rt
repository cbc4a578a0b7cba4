// Theorems about the definitions of the BLAS routines: the statements stand in specs/, the proofs in proofs/; there is no code here.

#![tactic(auto)]
