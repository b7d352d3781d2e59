//! The marked examples P1 to P12 of document 01, section 6: the list is in specs/, its proof in proofs/, and the one function's promise is the list.
#![tactic(auto)]

ghost use Rattle.marked.specs.Marked.{MarkedExamples};

/// Does nothing; it promises the list.
pub fn marked_examples()
    ensures { MarkedExamples }
{}
