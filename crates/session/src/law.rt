//! What is proved of sessions.
ghost use Rattle.session.specs.Laws.{OneAnswer};
ghost use Rattle.session.specs.Still.{StaysOpened, KeepsOpened, WritesGathered, EndsWithCounts};

/// The rules leave no choice: an input is answered by one list of lines.
pub fn one_answer_law()
    ensures stands { OneAnswer }
{}

/// In a session without calls the surface that is written stays the one that was opened, and so do its counts.
pub fn still_law()
    ensures stays { StaysOpened }
    ensures keeps { KeepsOpened }
    ensures writes { WritesGathered }
    ensures ends { EndsWithCounts }
{}
