// The second curve: its definitions (specs/) and what is promised of it (proofs/Promises.antt). There is no code here.
#![tactic(auto)]
