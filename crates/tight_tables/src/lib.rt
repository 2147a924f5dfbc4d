// Tables of the second curve in their slots: the first one, a copy with what is live, and the answer.
#![tactic(auto)]

mod answer;
mod copy;
mod start;
