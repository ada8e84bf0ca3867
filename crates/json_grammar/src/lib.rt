// JSON, RFC 8259: definitions alone.
#![tactic(auto)]
