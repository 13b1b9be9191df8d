// The machine over interfaces: definitions and proofs only. A contract speaks of values, not of all interfaces there could be, so each theorem is named by a contract where the parts are given.
#![tactic(auto)]
