// Bare rows as text, printed: what the text is, and that reading it gives them back.
#![tactic(auto)]
