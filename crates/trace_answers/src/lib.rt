//! The lines of a trace are those of the answers to its calls, and the answers go as the demand over selector trees says: the statements are
//! in specs/, the proofs in proofs/, and the one function's promise is the statements.
#![tactic(auto)]

ghost use Rattle.trace_answers.specs.Answering.{LinesAreAnswers, TracesAreAnswered};

/// Does nothing; it promises the theorems.
pub fn answers_of_a_trace()
    ensures lines { LinesAreAnswers }
    ensures answered { TracesAreAnswered }
{}
