//! No code: specs/ states the worked examples of the definitions of all three layers. PROTOCOL 11.
#![tactic(auto)]
