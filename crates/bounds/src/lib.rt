// What a call promises that tests a bound by itself: definitions and two laws, and no code. See specs/Lib.antt.
#![tactic(auto)]
