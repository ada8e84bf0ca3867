// The vault's label: definitions alone.
#![tactic(auto)]
