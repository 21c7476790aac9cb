// Definitions and laws only: the tables from which eight groups at once are decoded.
#![tactic(auto)]
