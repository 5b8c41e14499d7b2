// A run over a log is a sequence of steps from no site, so what holds over every sequence holds of it. There is no code here: specs/Replay.antt
// has the statement, specs/Example.antt a log in which a change is accepted, and specs/Listing.antt whole logs with the bytes that they print.
#![tactic(auto)]
