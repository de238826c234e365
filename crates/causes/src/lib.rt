// What is called, and why a call is refused: lists of calls, and the causes of each operation in their order. No code: the definitions stand in
// specs/.
#![tactic(auto)]
