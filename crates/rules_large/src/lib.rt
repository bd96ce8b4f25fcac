// Examples with lists and frames of 65,536, evaluated.
#![tactic(auto)]
