// Reading and writing are one rule: promise P1, about the definitions of `network`. The crate has no code.
#![tactic(auto)]
