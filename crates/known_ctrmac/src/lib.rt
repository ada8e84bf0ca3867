// Known answers for SIV_CTRMAC: what the definitions give for known inputs stands in specs/, and the checker works it out.
#![tactic(auto)]
