// Laws of the definitions of `hume`, for every crate that reads or writes what they speak of.
#![tactic(auto)]
