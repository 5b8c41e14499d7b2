// The worked edges of document 01 that are marked P, shown of the definitions. There is no code here: specs/Edges.antt has the list.
#![tactic(auto)]
