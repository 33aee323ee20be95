// Tables: there is no code here. specs/ has the tests of a list that other crates' definitions are written with, proofs/ the
// laws that carry one computed test over a whole table to each of its entries.
#![tactic(auto)]
