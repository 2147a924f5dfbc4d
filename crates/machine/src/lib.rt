// The cache that is bounded, as definitions only: see specs/. Nothing of the analysis stands here.
#![tactic(auto)]
