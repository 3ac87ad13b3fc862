// No code: the theory of gaps, and of what the classes of a job decide. Read specs/ and the theorems of the same names in proofs/.
#![tactic(auto)]
