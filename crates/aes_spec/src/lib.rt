// FIPS 197 as definitions (specs/), with its tables and vectors worked out from them (proofs/). There is no code here.
#![tactic(auto)]
