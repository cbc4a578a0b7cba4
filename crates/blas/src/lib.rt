// The definitions of the BLAS routines stand in specs/; there is no code here.

#![tactic(auto)]
