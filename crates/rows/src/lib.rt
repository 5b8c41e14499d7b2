// Each row of document 01's table of refusals as a statement of its own. There is no code here: specs/Rows.antt is what a reader checks
// against the table.
#![tactic(auto)]
