//! Demand 3 for the calls on bytes: its statement is in specs/, its proof in proofs/, and the one function's promise is that statement.
#![tactic(auto)]

ghost use Rattle.demand.specs.Statement.{Demand3OnBytes};

/// Does nothing; it promises the theorem.
pub fn demand_3_on_bytes()
    ensures { Demand3OnBytes }
{}
