// Names and directory paths as they are stored, and what each call on them ends in.
#![tactic(auto)]
