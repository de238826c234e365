// Our own equipment: that it is sound, and roots that are found quickly; the sheets of the examples. No code.
#![tactic(auto)]
