// Lists that a rule makes, as the arrays of a record are described. There is no code here: specs/Tables.antt is what the layers above cite.
#![tactic(auto)]
