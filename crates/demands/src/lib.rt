// The demands on a judge, over every list of calls: definitions and theorems only. The calls are those of the crate `judge`.
#![tactic(auto)]
