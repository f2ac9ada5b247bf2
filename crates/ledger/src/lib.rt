// The ledger has no code of its own: its theorem stands in specs/.
#![tactic(auto)]
