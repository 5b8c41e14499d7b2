// What a step tells a node. There is no code here: the definitions are in specs/.
#![tactic(auto)]
