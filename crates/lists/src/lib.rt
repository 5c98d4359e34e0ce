// No code: what loops over a range of numbers leave, and the laws of it, for every crate above.
#![tactic(auto)]
