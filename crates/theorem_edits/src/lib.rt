// What an edit leaves is an accepted book of exactly the edited bodies, and a body replaced by itself changes nothing. Theorems only.
#![tactic(auto)]
