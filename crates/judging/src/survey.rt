//! Judging a gathering with the tables of a closed surface for an answer.
ghost use Rattle.std.specs.Prelude.{◌≡◌, ◌*◌, ◌/◌, ◌≤◌, pos, ◌+ℤ◌, ◌-ℤ◌, IfErr, IfOk};
ghost use Rattle.gathering.specs.Model.{positions as positions_of, corners as corners_of};
ghost use Rattle.judging.specs.Tables.{Surveyed};
ghost use Rattle.judging.specs.Verdict.{WhyNot};

use crate::judge::fans::Fans;
use crate::judge::first_flaw;
use crate::judge::pairing::{Pairs, entries_of};
use crate::tables::Tables;
use crate::verdict::{Counts, Flaw, Unjudged};
use gathering::gathering::Gathering;
use std::alloc::Global;

/// The counts of a closed surface of `n` vertices and `m` triangles: three unordered sides to two triangles.
fn counts(n: usize, m: usize, pieces: u16) -> Counts
    requires few_vertices { n ≤ 1024 }
    requires few_triangles { m ≤ 2048 }
    ensures vertices { result.vertices ≡ n }
    ensures triangles { result.triangles ≡ m }
    ensures euler { result.euler ≡ (pos n -ℤ pos (3 * m / 2)) +ℤ pos m }
    ensures pieces { result.pieces ≡ pieces }
{
    let edges = 3 * m / 2;
    Counts {
        vertices: n as u16,
        triangles: m as u16,
        euler: n as i32 - edges as i32 + m as i32,
        pieces,
    }
}

/// Judges whether the gathered triangles form a closed surface with no zero normal, and gives its counts and its tables.
pub fn survey(heap: Global, gathering: &Gathering) -> Result<Tables, Unjudged>
    ensures surveyed { IfOk result (λ t. Surveyed (positions_of gathering.now) (corners_of gathering.now) t) }
    ensures why_not { IfErr result (λ u. WhyNot (positions_of gathering.now) (corners_of gathering.now) u) }
{
    let positions = gathering.positions();
    let corners = gathering.corners();
    if corners.is_empty() {
        return Err(Unjudged::Flawed(Flaw::NoTriangle));
    }
    let n = positions.len();
    let pairs = Pairs::new(heap, Fans::new(heap, corners, n)?)?;
    if let Some(flaw) = first_flaw(positions, &pairs) {
        return Err(Unjudged::Flawed(flaw));
    }
    let pieces = pairs.fans.count_pieces(heap)?;
    let twin = entries_of(heap, &pairs.twin)?;
    let out = entries_of(heap, &pairs.fans.last)?;
    Ok(Tables {
        counts: counts(n, corners.len() / 3, pieces),
        twin,
        out,
    })
}
