// No function: what is promised of lessons as text, as theorems over the definitions of names, lines and phrases.
#![tactic(auto)]
