//! The surface while it is being gathered.
ghost use Rattle.std.specs.Prelude.{Bool, false, IfOk};
ghost use Rattle.session.specs.Back.{BackWith, OpenedOn};
ghost use Rattle.session.specs.Fits.{Fits};
ghost use Rattle.session.specs.Gauges.{gauge_number};
ghost use Rattle.session.specs.Held.{held, held_draft};
ghost use Rattle.session.specs.Replies.{Replied};
ghost use Rattle.session.specs.declared.gauges.Gauge.TheVariants.{Planes as on_planes, Sweep as on_sweep};
ghost use Rattle.session.specs.declared.command.Command.TheVariants.{Name, Vertex, Triangle, Open};

use crate::gauges::Gauge;
use crate::hull::Hull;
use crate::refusal::Refusal;
use crate::reply::Reply;
use crate::state::State;
use crate::still::Still;
use gathering::gathering::Gathering;
use judging::judge::judge;
use judging::verdict::Unjudged;
use opened_surface::opened::opening::{OpenRefusal, Unopened, Why, open};
use planes::planes::Planes;
use std::alloc::{AllocError, Global};
use sweep::Sweep;

/// The longest name, in bytes.
const MOST_NAME: usize = 40;

/// How many vertices a surface may have that is opened on planes.
pub const PLANES_ENTRIES: usize = 400;

/// What is gathered, and whether the hold has its name.
#[derive(Drop)]
pub struct Draft {
    pub gathering: Gathering,
    pub named: bool,
}

impl Draft {
    /// Takes the first name, unless it is empty or longer than 40 bytes.
    pub fn name<'a>(&mut self, name: &'a [u8]) -> Result<Reply<'a>, Refusal>
        ensures replied { Replied (held_draft self.old) (Name name.entry) result (held_draft self.new) }
    {
        if self.named || name.is_empty() || name.len() > MOST_NAME {
            return Err(Refusal::Name);
        }
        self.named = true;
        Ok(Reply::Named(name))
    }

    /// Takes a vertex at these coordinates, or refuses it.
    pub fn vertex<'a>(&mut self, x: u16, y: u16, z: u16) -> Result<Reply<'a>, Refusal>
        ensures replied { Replied (held_draft self.old) (Vertex x y z) result (held_draft self.new) }
    {
        self.gathering.vertex(x, y, z)?;
        Ok(Reply::Nothing)
    }

    /// Takes a triangle of these corners, or refuses it.
    pub fn triangle<'a>(&mut self, a: u16, b: u16, c: u16) -> Result<Reply<'a>, Refusal>
        ensures replied { Replied (held_draft self.old) (Triangle a b c) result (held_draft self.new) }
    {
        self.gathering.triangle(a, b, c)?;
        Ok(Reply::Nothing)
    }

    /// Opens the surface on the gauge of this number, for calls where `CALLS` is true.
    pub fn open<'a, const CALLS: bool>(
        self,
        heap: Global,
        number: u8,
    ) -> Result<(State, Result<Reply<'a>, Refusal>), AllocError>
        ensures replied { IfOk result (λ p. Replied (held_draft self) (Open number) p.1 (held p.0)) }
        ensures fit { IfOk result (λ p. Fits CALLS p.0) }
    {
        let gauge = match Gauge::try_from(number) {
            Ok(gauge) => gauge,
            Err(why) => return Ok((State::Gathering(self), Err(why))),
        };
        if !CALLS {
            return self.judged_on(heap, gauge);
        }
        match gauge {
            Gauge::Planes => self.open_on_planes(heap),
            Gauge::Sweep => self.open_on_sweep(heap),
        }
    }

    // Judges the surface and keeps it as it was gathered, if it has no flaw and the gauge takes that many vertices.
    fn judged_on<'a>(
        self,
        heap: Global,
        gauge: Gauge,
    ) -> Result<(State, Result<Reply<'a>, Refusal>), AllocError>
        ensures replied { IfOk result (λ p. Replied (held_draft self) (Open (gauge_number gauge)) p.1 (held p.0)) }
        ensures fit { IfOk result (λ p. Fits false p.0) }
    {
        let counts = match judge(heap, &self.gathering) {
            Ok(counts) => counts,
            Err(Unjudged::NoMemory) => return Err(AllocError),
            Err(Unjudged::Flawed(flaw)) => {
                return Ok((
                    State::Gathering(self),
                    Err(Refusal::Open(OpenRefusal::Flawed(flaw))),
                ));
            }
        };
        if self.gathering.positions().len() > gauge.most_vertices() {
            return Ok((
                State::Gathering(self),
                Err(Refusal::Open(OpenRefusal::TooManyVertices)),
            ));
        }
        let still = Still {
            gathering: self.gathering,
            counts,
            gauge,
        };
        Ok((State::Still(still), Ok(Reply::Opened(counts))))
    }

    // Kept: one body for both gauges needs `Hull` to be `From` any opened surface, with a law on its gauge and its mesh, and is longer than the two.
    fn open_on_planes<'a>(
        self,
        heap: Global,
    ) -> Result<(State, Result<Reply<'a>, Refusal>), AllocError>
        ensures replied { IfOk result (λ p. Replied (held_draft self) (Open (gauge_number on_planes)) p.1 (held p.0)) }
        ensures fit { (calls : Bool) → IfOk result (λ p. Fits calls p.0) }
    {
        let Draft { gathering, named } = self;
        let gauge = Planes::new(heap, PLANES_ENTRIES)?;
        match open(heap, gathering, gauge) {
            Ok(opened) => Ok(opened_on(Hull::Planes(opened))),
            Err(unopened) => not_opened(unopened, named),
        }
    }

    fn open_on_sweep<'a>(
        self,
        heap: Global,
    ) -> Result<(State, Result<Reply<'a>, Refusal>), AllocError>
        ensures replied { IfOk result (λ p. Replied (held_draft self) (Open (gauge_number on_sweep)) p.1 (held p.0)) }
        ensures fit { (calls : Bool) → IfOk result (λ p. Fits calls p.0) }
    {
        let Draft { gathering, named } = self;
        match open(heap, gathering, Sweep::new()) {
            Ok(opened) => Ok(opened_on(Hull::Sweep(opened))),
            Err(unopened) => not_opened(unopened, named),
        }
    }
}

/// The opened surface, and the reply with its counts.
fn opened_on<'a>(hull: Hull) -> (State, Result<Reply<'a>, Refusal>)
    ensures opened { OpenedOn hull result.0 result.1 }
{
    let counts = hull.counts();
    (State::Opened(hull), Ok(Reply::Opened(counts)))
}

/// The draft as it was, with the refusal, or want of memory.
fn not_opened<'a, G: Drop>(
    unopened: Unopened<G>,
    named: bool,
) -> Result<(State, Result<Reply<'a>, Refusal>), AllocError>
    ensures back { IfOk result (λ p. BackWith unopened.gathering named unopened.why p.0 p.1) }
{
    let Unopened {
        gathering,
        gauge: _,
        why,
    } = unopened;
    match why {
        Why::Refused(refusal) => Ok((
            State::Gathering(Draft { gathering, named }),
            Err(refusal.into()),
        )),
        Why::NoMemory => Err(AllocError),
    }
}
