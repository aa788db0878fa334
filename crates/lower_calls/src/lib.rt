// Laws of expressions: how a lowering goes on over words, calls and the short ways of `and` and `or`, and what it leaves.
#![tactic(auto)]
