// No code: that any text that loads is what saving would write of its tables.

#![tactic(auto)]
