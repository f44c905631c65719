// The starred cases of the rules stand in specs/Starred.antt; this crate has no code.
#![tactic(auto)]
