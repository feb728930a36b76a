// Round trips of tables with labels: no code.
#![tactic(auto)]
