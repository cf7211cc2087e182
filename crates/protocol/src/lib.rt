// The protocol of eight machines, as functions on records.
#![tactic(auto)]
