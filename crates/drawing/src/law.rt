//! What holds of every surface that is drawn.
ghost use Rattle.drawing.specs.Back.{DrawnBack, DrawnAndRegathered, DrawnBackWhole, DrawnAndRegatheredWhole};
ghost use Rattle.drawing.specs.ClosedUp.{ClosingUp};

/// A closed surface with its numbers closed up is closed, with as many vertices and triangles, the same Euler number and
/// pieces, and no zero normal if there was none.
pub fn closing_up_law()
    ensures stands { ClosingUp }
{}

/// What was drawn of a mesh makes, when it is gathered again, such a surface, with the same points.
pub fn drawn_back_law()
    ensures stands { DrawnBack }
{}

/// What was drawn of a mesh is never refused when it is gathered again.
pub fn drawn_and_regathered_law()
    ensures stands { DrawnAndRegathered }
{}

/// It has the live vertices and triangles of the mesh and no others, each at its place, with the corners renumbered.
pub fn drawn_back_whole_law()
    ensures stands { DrawnBackWhole }
{}

/// So has what was drawn of a mesh and gathered again, which is refused only where there is no memory.
pub fn drawn_and_regathered_whole_law()
    ensures stands { DrawnAndRegatheredWhole }
{}
