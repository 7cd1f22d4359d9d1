#![tactic(auto)]

// Theorems over the definitions alone: nothing here runs. specs/ has the statements and their words, proofs/ the laws behind them; `Promises.antt` of either has
// them all.
