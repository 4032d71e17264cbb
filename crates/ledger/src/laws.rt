//! The laws of the ledger, for every gauge.
ghost use Rattle.ledger.specs.Laws.{FoldsInWords, Preserved, Stands, SingleValued, StepInWords, Total, NeverStuck, CollapseFollowed};
ghost use Rattle.ledger.specs.Stepped.{StepsRight};

use gauge::Gauge;

/// A call on a sensible book leaves a sensible one, of the same opened surface.
pub fn preserved_law<G: Gauge>()
    ensures stands { Preserved G.Gauge G.Cost.Ordered }
{}

/// Through any list of calls the triangle list stays closed, with the Euler number and the number of pieces that it had.
pub fn stands_law<G: Gauge>()
    ensures stands { Stands G.Gauge G.Cost.Ordered }
{}

/// The opened surface, the gauge's meaning and the calls fix the book and the answers, but for the counts of moves.
pub fn single_valued_law<G: Gauge>()
    ensures stands { SingleValued G.Gauge G.Cost.Ordered }
{}

/// A collapse folds where the normals of some moved triangle before and after have a scalar product of zero or below.
pub fn folds_in_words_law()
    ensures stands { FoldsInWords }
{}

/// A step takes the collapse than which every other permitted one costs more, or ranks equal and has a greater u, or ranks
/// equal with the same u and a greater w.
pub fn step_in_words_law<G: Gauge>()
    ensures stands { StepInWords G.Gauge G.Cost.Ordered }
{}

/// Each step among a list of calls was right, of the book as it stood then: the collapse that it took was permitted and every
/// other permitted one costs more, or ranks equal and has a greater u, or ranks equal with the same u and a greater w; it was
/// refused just where none was permitted.
pub fn steps_right_law<G: Gauge>()
    ensures stands { StepsRight G.Gauge G.Cost.Ordered }
{}

/// For every sensible book and list of calls there are answers and a book after them.
pub fn total_law<G: Gauge>()
    ensures stands { Total G.Gauge G.Cost.Ordered }
{}

/// There is no sensible book and list of calls without answers, whatever the order.
pub fn never_stuck_law<G: Gauge>()
    ensures stands { NeverStuck G.Gauge G.Cost.Ordered }
{}

/// A collapse works on the triangle list and the account as they stand, and taking it back restores both.
pub fn collapse_followed_law<G: Gauge>()
    ensures stands { CollapseFollowed G.Gauge G.Cost.Ordered }
{}
