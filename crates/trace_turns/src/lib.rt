//! The turns of the program over a trace are runs over blocks that it is cut into, so they write the text of its lines,
//! which are those of the answers that the demand over selector trees speaks of: the statements are in specs/, the proofs in proofs/, and the
//! one function's promise is the statements.
#![tactic(auto)]

ghost use Rattle.trace_turns.specs.Answered.{TurnsAreAnswered};
ghost use Rattle.trace_turns.specs.Turns.{TurnsAreACutting, TurnsWriteTheLines};

/// Does nothing; it promises the theorems.
pub fn turns_of_a_trace()
    ensures cutting { TurnsAreACutting }
    ensures lines { TurnsWriteTheLines }
    ensures answered { TurnsAreAnswered }
{}
