// The walk one step at a time: no code, only the definitions and laws that join the model's walk to code that spends a budget and keeps live sets.
#![tactic(auto)]
