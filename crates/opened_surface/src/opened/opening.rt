//! Opening a gathered surface with a gauge.
ghost use Rattle.std.specs.Prelude.{◌≡◌};
ghost use Rattle.opened_surface.specs.Begun.{Begun, LargeWhy, Prepares};
ghost use Rattle.opened_surface.specs.Openings.{open_number, open_place, Opens};

use super::Opened;
use crate::mending::fill;
use crate::stale::Stale;
use crate::thinning::Thinning;
use gathering::gathering::Gathering;
use gauge::TooManyVertices;
use gauge::telling::TellingGauge;
use judging::judge::judge;
use judging::verdict::{Flaw, Unjudged};
use mesh::mesh::{Mesh, opening as meshes};
use queue::Queue;
use std::alloc::Global;
use std::marker::PhantomData;

/// Why a gathered surface is refused with a gauge.
#[derive(Clone, Copy)]
pub enum OpenRefusal {
    /// It breaks a rule.
    Flawed(Flaw),
    /// There are more vertices than the gauge takes.
    TooManyVertices,
}

impl OpenRefusal {
    /// The number of the refusal.
    pub fn number(self) -> u8
        ensures value { result ≡ open_number self }
    {
        match self {
            OpenRefusal::Flawed(flaw) => flaw.number(),
            OpenRefusal::TooManyVertices => TooManyVertices.number(),
        }
    }

    /// The lowest triangle or vertex concerned, 0 where there is none.
    // Kept: docs/REFUSALS.md gives each refusal on opening a place, and 0 to the one that concerns none.
    pub fn place(self) -> u16
        ensures value { result ≡ open_place self }
    {
        match self {
            OpenRefusal::Flawed(flaw) => flaw.place(),
            OpenRefusal::TooManyVertices => 0,
        }
    }
}

/// Why a gathered surface is not opened.
#[derive(Clone, Copy)]
pub enum Why {
    Refused(OpenRefusal),
    NoMemory,
}

/// A gathering and a gauge that are not opened, as they came.
#[derive(Drop)]
pub struct Unopened<G> {
    pub gathering: Gathering,
    pub gauge: G,
    pub why: Why,
}

impl From<Unjudged> for Why {
    ghost use Rattle.opened_surface.specs.Whys.{why_of};

    ghost from_gives = { λ u why. why ≡ why_of u };

    fn from(why: Unjudged) -> Why {
        match why {
            Unjudged::Flawed(flaw) => Why::Refused(OpenRefusal::Flawed(flaw)),
            Unjudged::NoMemory => Why::NoMemory,
        }
    }
}

/// Why a gathering is not opened that has more vertices than the gauge takes: a rule that it breaks comes first.
fn why_large(heap: Global, gathering: &Gathering) -> Why
    ensures reason { LargeWhy gathering.now result }
{
    match judge(heap, gathering) {
        Ok(_) => Why::Refused(OpenRefusal::TooManyVertices),
        Err(why) => why.into(),
    }
}

/// A queue and stale vertices for a gathering that the gauge takes: no half-edge has a key, and no vertex is stale.
fn prepare<G: TellingGauge>(
    heap: Global,
    gathering: &Gathering,
    gauge: &G,
) -> Result<(Queue<G::Cost>, Stale), Why>
    ensures prepared { Prepares G.Gauge G.Cost.Ordered gathering.now gauge.now result }
{
    if gauge.most_vertices() < gathering.positions().len() {
        return Err(why_large(heap, gathering));
    }
    let queue = Queue::new(heap, gathering.corners().len()).map_err(|_| Why::NoMemory)?;
    let stale = Stale::new(heap, gathering.positions().len()).map_err(|_| Why::NoMemory)?;
    Ok((queue, stale))
}

/// Opens the account of a mesh and gives each of its half-edges its key.
fn begin<G: TellingGauge>(
    mesh: Mesh,
    mut gauge: G,
    mut queue: Queue<G::Cost>,
    stale: Stale,
) -> Thinning<G>
    ensures begun { Begun G.Gauge G.Cost.Ordered mesh gauge queue stale result }
{
    let _ = gauge.open(&mesh);
    fill(&mesh, &gauge, &mut queue);
    Thinning {
        mesh,
        gauge,
        queue,
        stale,
    }
}

/// Opens the gathered surface with a gauge, or hands both back as they came.
pub fn open<G: TellingGauge>(
    heap: Global,
    gathering: Gathering,
    gauge: G,
) -> Result<Opened<G>, Unopened<G>>
    ensures outcome { Opens G.Gauge G.Cost.Ordered gathering gauge result }
{
    // Kept: a `?` would drop gathering and gauge, which are handed back.
    let (queue, stale) = match prepare(heap, &gathering, &gauge) {
        Ok(prepared) => prepared,
        Err(why) => {
            return Err(Unopened {
                gathering,
                gauge,
                why,
            });
        }
    };
    match meshes::open(heap, gathering) {
        Ok(meshes::Opening { mesh, counts }) => Ok(Opened {
            thinning: begin(mesh, gauge, queue, stale),
            counts,
            entries: PhantomData,
        }),
        Err(meshes::Refused { gathering, why }) => Err(Unopened {
            gathering,
            gauge,
            why: why.into(),
        }),
    }
}
