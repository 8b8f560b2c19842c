// The printed form of a program's lines, and the proof that a line is read exactly when it is printed so.
#![tactic(auto)]
