// Definitions that step with a loop, by recursion on a bound (specs/Below.antt), and their lemmas (proofs/): all, some, how many and
// the least of the numbers below the bound that pass a test.

#![tactic(auto)]
