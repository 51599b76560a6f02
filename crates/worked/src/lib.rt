// No code: the worked cases of docs/SCOPE.md, over the definitions of plan and cabinet, stand in specs/ and are shown in proofs/.
#![tactic(auto)]
