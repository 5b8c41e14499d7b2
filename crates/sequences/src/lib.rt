// What holds over every sequence of steps, each given the site and the table that the last one left. There is no code here: specs/Demand.antt
// has the statements, specs/History.antt what they speak of, and the other files the proofs.
#![tactic(auto)]
