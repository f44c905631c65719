// The promises of the turn run, about the definitions: its outputs are those of the zero-delay run, it goes forward, and no job is interrupted. The crate has no code.
#![tactic(auto)]
