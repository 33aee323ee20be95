// Document 01's starred cases. There is no code here: specs/ has the table, and proofs/ shows all of it by one computed test.
#![tactic(auto)]
