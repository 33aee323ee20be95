// What W-205's bypass means above a PLL's output: when evaluation refuses with 3, and that a PLL which a run has locked is in use.
// There is no code here: specs/ has the sentences, and proofs/ shows them of evaluation and of the PLL sequence.
#![tactic(auto)]
