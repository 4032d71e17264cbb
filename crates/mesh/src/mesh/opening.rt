//! Opening a mesh from a gathered surface.
ghost use Rattle.std.specs.Prelude.{◌≡◌, ◌≤◌, [], IfOk, vec_capacity};
ghost use Rattle.mesh.specs.Opened.{Prepares, Opens};

use super::Mesh;
use crate::halfedges::HalfEdges;
use crate::record::Record;
use gathering::gathering::Gathering;
use judging::survey::survey;
use judging::tables::Tables;
use judging::verdict::{Counts, Unjudged};
use std::alloc::{AllocError, Global};

/// A mesh as it was opened, and the counts of its surface.
#[derive(Drop)]
pub struct Opening {
    pub mesh: Mesh,
    pub counts: Counts,
}

/// A gathering that is not opened, as it came.
#[derive(Drop)]
pub struct Refused {
    pub gathering: Gathering,
    pub why: Unjudged,
}

/// What a mesh takes memory for, besides the lists of the gathering.
struct Prepared {
    counts: Counts,
    edges: HalfEdges,
    log: Vec<Record>,
}

/// A log with nothing in it, and room for `n` records.
fn empty_log(heap: Global, n: usize) -> Result<Vec<Record>, AllocError>
    ensures empty { IfOk result (λ v. v.items ≡ []) }
    ensures room { IfOk result (λ v. n ≤ vec_capacity v) }
{
    Vec::with_capacity(heap, n)
}

/// Judges the gathering, and takes all memory that its mesh will need.
fn prepare(heap: Global, gathering: &Gathering) -> Result<Prepared, Unjudged>
    ensures outcome { Prepares gathering.now result }
{
    let Tables { counts, twin, out } = survey(heap, gathering)?;
    let n = gathering.positions().len();
    let edges = HalfEdges::all_live(heap, gathering.corners(), n, twin, out)?;
    let log = empty_log(heap, n)?;
    Ok(Prepared { counts, edges, log })
}

/// Opens the gathered surface, or hands the gathering back.
pub fn open(heap: Global, gathering: Gathering) -> Result<Opening, Refused>
    ensures outcome { Opens gathering result }
{
    // Kept: a `?` would drop the gathering, which is handed back.
    match prepare(heap, &gathering) {
        Ok(Prepared { counts, edges, log }) => {
            let (positions, opened) = gathering.into_parts();
            let mesh = Mesh {
                positions,
                opened,
                edges,
                log,
                position: 0,
            };
            Ok(Opening { mesh, counts })
        }
        Err(why) => Err(Refused { gathering, why }),
    }
}
