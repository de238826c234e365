// The second page: wrong boards, called shams, and that what is claimed of a board refutes each. No code.
#![tactic(auto)]
