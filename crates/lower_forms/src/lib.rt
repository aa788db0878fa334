// Laws of the forms of the tree: what the lowering asks of each, and its code part by part.
#![tactic(auto)]
