//! Worked rows of a world of stations, computed by the checker from the definitions. There is nothing to run here.
#![tactic(auto)]
