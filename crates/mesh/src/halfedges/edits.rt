//! Collapse and vertex split in place.
ghost use Rattle.std.specs.Prelude.{◌≡◌, ℕ, ◌/◌, ◌<◌, true, length, slice_index, slice_set};
ghost use Rattle.surface.specs.Closed.{Closed};
ghost use Rattle.surface.specs.Surface.{Surface, next, prev};
ghost use Rattle.mesh.specs.Edits.{crossed, uncrossed, mended, collapsed, Beside, Cornered, Joined, Taken, Parted};
ghost use Rattle.mesh.specs.Model.{held};
ghost use Rattle.mesh.specs.Moves.{record_of};
ghost use Rattle.mesh.specs.Walks.{Walkable, Moved};

use super::HalfEdges;
use super::turns::{following, preceding};
use crate::record::Record;

/// Writes `v` at the half-edges round their vertex from `first` to `last`.
fn walk(corners: &mut [u16], twin: &[u16], first: u16, last: u16, v: u16)
    requires ready { Walkable corners.old twin.now first last v }
    ensures moved { Moved corners.old twin.now first last v corners.new }
{
    // Kept as a loop: it writes corners on its way, between two half-edges, and has the lists alone.
    let mut h = first;
    while h != last {
        corners[h as usize] = v;
        h = twin[preceding(h)];
    }
    corners[last as usize] = v;
}

/// Writes `v` at the half-edges round the vertex between the triangles of `e` and `f`, from behind the one to behind the other.
// Kept: `beside` is a fact of two numbers and of the list of twins, which `cross` and `uncross` write, so a struct of the numbers alone can't have it.
fn turn(corners: &mut [u16], twin: &[u16], e: u16, f: u16, v: u16)
    requires beside { Beside twin.now e f }
    requires ready { Walkable corners.old twin.now (slice_index twin.now (prev e)) (next (slice_index twin.now (next f))) v }
    ensures moved { Moved corners.old twin.now (slice_index twin.now (prev e)) (next (slice_index twin.now (next f))) v corners.new }
{
    let first = twin[preceding(e)];
    let last = following(twin[following(f)]) as u16;
    walk(corners, twin, first, last, v);
}

/// Makes the half-edges behind each of the triangles of `e` and `f` twins of each other.
fn cross(twin: &mut [u16], e: u16, f: u16)
    requires beside { Beside twin.old e f }
    ensures value { twin.new ≡ crossed twin.old e f }
{
    let a = twin[following(e)];
    let b = twin[preceding(e)];
    let c = twin[following(f)];
    let d = twin[preceding(f)];
    twin[a as usize] = b;
    twin[b as usize] = a;
    twin[c as usize] = d;
    twin[d as usize] = c;
}

/// Makes the half-edges behind each of the triangles of `e` and `f` twins of those in the triangles again.
// Kept beside `cross`: one function for both would be given the four twins, which are all that the two differ in.
fn uncross(twin: &mut [u16], e: u16, f: u16)
    requires beside { Beside twin.old e f }
    ensures value { twin.new ≡ uncrossed twin.old e f }
{
    let a = twin[following(e)];
    let b = twin[preceding(e)];
    let c = twin[following(f)];
    let d = twin[preceding(f)];
    twin[a as usize] = following(e) as u16;
    twin[b as usize] = preceding(e) as u16;
    twin[c as usize] = following(f) as u16;
    twin[d as usize] = preceding(f) as u16;
}

/// Makes the triangles of `e` and `f` live or dead.
fn mark(triangles: &mut [bool], e: u16, f: u16, live: bool)
    requires first { e / 3 < length triangles.old }
    requires second { f / 3 < length triangles.old }
    ensures value { triangles.new ≡ slice_set (slice_set triangles.old (e / 3) live) (f / 3) live }
{
    // Kept as two writes: a loop over two places is longer.
    triangles[(e / 3) as usize] = live;
    triangles[(f / 3) as usize] = live;
}

/// Gives the corners of the triangles of `e` and `f` half-edges for the time after the collapse of `e`.
fn mend(out: &mut [u16], corners: &[u16], twin: &[u16], e: u16, f: u16)
    requires beside { Beside twin.now e f }
    requires long { length corners.now ≡ length twin.now }
    requires cornered { Cornered corners.now out.old e f }
    ensures value { out.new ≡ mended out.old corners.now twin.now e f }
{
    out[corners[e as usize] as usize] = e;
    out[corners[f as usize] as usize] = twin[preceding(f)];
    out[corners[preceding(e)] as usize] = twin[following(e)];
    out[corners[preceding(f)] as usize] = twin[following(f)];
}

impl HalfEdges {
    /// The collapse that the half-edge `e` stands for.
    pub(crate) fn record_of(&self, e: u16) -> Record
        requires live { (held self.now).alive (e / 3) ≡ true }
        ensures value { result ≡ record_of self.now e }
    {
        Record {
            u: self.corners[e as usize],
            w: self.corners[following(e)],
        }
    }

    /// Collapses the vertex at which `e` begins to the one at which it ends.
    pub(crate) fn join(&mut self, e: u16)
        requires live { (held self.old).alive (e / 3) ≡ true }
        requires closed { ∥ Closed (collapsed self.old e) ∥₁ }
        ensures joined { Joined self.old e self.new }
    {
        let f = self.twin[e as usize];
        let u = self.corners[e as usize];
        let w = self.corners[f as usize];
        mend(&mut self.out, &self.corners, &self.twin, e, f);
        turn(&mut self.corners, &self.twin, e, f, w);
        cross(&mut self.twin, e, f);
        mark(&mut self.triangles, e, f, false);
        self.vertices[u as usize] = false;
    }

    /// Takes the collapse of `u` back: the vertex split.
    pub(crate) fn part(&mut self, u: u16)
        requires taken { (S : Surface) × (w : ℕ) × Taken S u w self.old }
        ensures parted { (S : Surface) (w : ℕ) → Taken S u w self.old → Parted S self.old self.new }
    {
        let e = self.out[u as usize];
        let f = self.twin[e as usize];
        let w = self.corners[f as usize];
        turn(&mut self.corners, &self.twin, e, f, u);
        uncross(&mut self.twin, e, f);
        mark(&mut self.triangles, e, f, true);
        self.vertices[u as usize] = true;
        self.out[w as usize] = f;
    }
}
