#![tactic(auto)]

// Theorems over the definitions alone: nothing here runs.
