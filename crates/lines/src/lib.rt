// A text cut into its rows.

#![tactic(auto)]
