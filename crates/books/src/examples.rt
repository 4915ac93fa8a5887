// The definitions on examples that were worked out by hand.
ghost use Rattle.books.specs.Worked.{WorkedExamples};

/// Has nothing to do: its promise is the table of worked examples.
pub fn worked_examples()
    ensures { WorkedExamples }
{}
