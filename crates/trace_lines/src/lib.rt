//! What a whole trace is answered by, and that blocks cut from it are answered by the same: the statements are in specs/, the proofs in
//! proofs/, and the one function's promise is the statements.
#![tactic(auto)]

ghost use Rattle.trace_lines.specs.Cuttings.{Split, Stopping, Whole};

/// Does nothing; it promises the theorems.
pub fn split_theorem()
    ensures split { Split }
    ensures stopping { Stopping }
    ensures whole { Whole }
{}
