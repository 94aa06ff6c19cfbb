//! The words in which the definitions of several crates are written. There is no code here.
#![tactic(auto)]
