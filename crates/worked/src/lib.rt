//! Worked examples of the rules, proved as one table. The function does nothing: its contract is the table.
#![tactic(auto)]

ghost use Rattle.worked.specs.Examples.{WorkedExamples};

pub fn worked_examples()
    ensures { WorkedExamples }
{}
