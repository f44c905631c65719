// Output determinism, progress and deadlines of jobs run in turns, for any jobs, machine and plan. The crate has no code.
#![tactic(auto)]
