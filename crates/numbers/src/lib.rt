// No code: the table of numbers that come back stands in specs/, and that every step answers by it is proved in proofs/.
#![tactic(auto)]
