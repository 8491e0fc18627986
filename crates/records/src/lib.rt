// Texts, numbers and records in bytes, over any record length: definitions and laws that the crates above cite. No code stands here.
#![tactic(auto)]
