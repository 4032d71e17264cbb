//! The walk round a vertex that finds what its collapse sweeps.
ghost use Rattle.std.specs.Prelude.{◌≡◌, ◌/◌, ◌<◌, true, length, vec_len};
ghost use Rattle.surface.specs.Surface.{next};
ghost use Rattle.gathering.specs.Model.{point_of};
ghost use Rattle.mesh.specs.Model.{held};
ghost use Rattle.gauge.specs.Near.{near};
ghost use Rattle.sweep.specs.Sweeps.{volume_swept, number_moved};
ghost use Rattle.sweep.specs.Shares.{Share};

use crate::volume::six_volume;
use geometry::Position;
use mesh::halfedges::HalfEdges;

/// The volume that the collapse of the half-edge `e` sweeps, and the number of triangles that it moves.
pub(crate) fn swept(edges: &HalfEdges, positions: &[Position], e: u16) -> (u64, u16)
    requires live { (held edges.now).alive (e / 3) ≡ true }
    requires placed { length positions.now ≡ vec_len edges.now.vertices }
    ensures volume { result.0 ≡ volume_swept ((held edges.now).corner e) ((held edges.now).corner (next e)) (point_of positions.now ((held edges.now).corner (next e))) (near (held edges.now) (point_of positions.now) ((held edges.now).corner e) ((held edges.now).corner (next e))) }
    ensures number { result.1 ≡ number_moved ((held edges.now).corner e) ((held edges.now).corner (next e)) (near (held edges.now) (point_of positions.now) ((held edges.now).corner e) ((held edges.now).corner (next e))) }
{
    let w = edges.end(e);
    let mut volume = 0;
    let mut number = 0;
    for h in edges.ring(edges.start(e)) {
        let (size, one) = share(edges, positions, h, w);
        volume += size;
        number += one;
    }
    (volume, number)
}

/// What the triangle of `h` adds to the volume and to the number: the size of its six-volume at the point of `w`, and one;
/// nothing if `w` is its second or third corner.
fn share(edges: &HalfEdges, positions: &[Position], h: u16, w: u16) -> (u64, u16)
    requires live { (held edges.now).alive (h / 3) ≡ true }
    requires placed { length positions.now ≡ vec_len edges.now.vertices }
    requires known { w < length positions.now }
    ensures adds { Share (held edges.now) (point_of positions.now) w h result.0 result.1 }
{
    let b = edges.end(h);
    let c = edges.third(h);
    if b == w || c == w {
        return (0, 0);
    }
    let p = positions[usize::from(edges.start(h))];
    let q = positions[usize::from(b)];
    let r = positions[usize::from(c)];
    let size = six_volume(p, q, r, positions[usize::from(w)]).unsigned_abs();
    (size, 1)
}
