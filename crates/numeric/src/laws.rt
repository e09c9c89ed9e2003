//! A law over numeric text, in terms of what was written. The function does nothing: its contract is the law.
ghost use Rattle.numeric.specs.Laws.{PrintedReadsBack};

pub fn printed_integers_read_back()
    ensures { PrintedReadsBack }
{}
