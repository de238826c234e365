// What is claimed of a board, for any equipment and any board program. No code: the statements stand in specs/.
#![tactic(auto)]
