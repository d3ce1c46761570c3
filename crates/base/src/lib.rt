// No function: the conditional, bits and sums that all definitions are made of, with their laws.
#![tactic(auto)]
