// Laws of blocks, branches, loops, functions and classes: how a lowering of statements goes on from one part to the next, and what it leaves.
#![tactic(auto)]
