// What has happened at a site of any kind, told by its steps and their answers. There is no code here: specs/History.antt is what the crates over sequences cite.
#![tactic(auto)]
