// What hand walks over records behind references share, in proofs/: `Whole` plain data and its laws, `Lent` one step for each read and
// write behind a reference, `Params` the way in and out, `Locals` where a local stands, `Tests` how a test comes out, `Under` frames,
// `Walking` the names of the logic. For slices of records: `Places` takes out an element and puts it back, `Again` lends a slice to a call,
// `Counting` and `Firsts` are for a loop over the first places, with what it adds up or changes in specs/First.antt. This crate has no code.
#![tactic(auto)]
