// Promise P10, one statement for each entry point: what a refused call returns, and what any call leaves in lent memory. The crate has no code.
#![tactic(auto)]
