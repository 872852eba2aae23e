// No code: what the definitions come to.

#![tactic(auto)]
