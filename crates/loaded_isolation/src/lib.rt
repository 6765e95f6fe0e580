// No code: that the isolation rule may begin from loaded tables and one common store.

#![tactic(auto)]
