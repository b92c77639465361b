#![tactic(auto)]

// Tests of FIRST_VALUE, LAST_VALUE and NTH_VALUE.
mod frames;
mod runs;
