//! What holds of every mesh.
ghost use Rattle.mesh.specs.Laws.{AlwaysKin};
ghost use Rattle.mesh.specs.Moves.{WayHidden};

/// Meshes of one opening with the same records done hold the same half-edges, whichever way each came there.
pub fn way_hidden_law()
    ensures stands { WayHidden }
{}

/// The surface of a mesh is closed, has the Euler number and the pieces of its opening, and no new zero normal.
pub fn always_kin_law()
    ensures stands { AlwaysKin }
{}
