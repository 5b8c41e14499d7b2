// What holds over every sequence of steps of an Arbiter site. There is no code here: specs/Demand.antt has what is promised.
#![tactic(auto)]
