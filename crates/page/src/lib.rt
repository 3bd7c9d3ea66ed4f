// The page that is pinned inside a cabinet's door: definitions and laws. The code is in page_code.
#![tactic(auto)]
