// That the store's laws fix its answers, wherever it has its sets, and that they are those of the store as it stood before §2 of 02. There is no code here.
#![tactic(auto)]
