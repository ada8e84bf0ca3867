// The test points of the definitions stand in specs/.
#![tactic(auto)]
