//! Gathering again what was drawn.
ghost use Rattle.std.specs.Prelude.{◌≡◌, ℕ, [], length};
ghost use Rattle.gathering.specs.Model.{positions as positions_of, corners as corners_of};
ghost use Rattle.drawing.specs.Points.{Quarter};
ghost use Rattle.drawing.specs.declared.regathering.Unfit.TheVariants.{NoMemory, Vertex, Triangle};
ghost use Rattle.drawing.specs.Back.{GathersPoints, GathersTriangles, Regathers, ComesBackWhole};

use crate::draw;
use crate::places::{count_vertices, live_triangles};
use crate::point::Point;
use gathering::gathering::Gathering;
use gathering::refusal::{TriangleRefusal, VertexRefusal};
use mesh::mesh::Mesh;
use std::alloc::{AllocError, Global};
use std::num::saturating_f32_to_u16;

/// Why points and triangles are not gathered.
#[derive(Clone, Copy)]
pub enum Unfit {
    NoMemory,
    Vertex(VertexRefusal),
    Triangle(TriangleRefusal),
}

impl From<AllocError> for Unfit {
    ghost from_gives = { λ _ r. r ≡ NoMemory };

    fn from(_e: AllocError) -> Unfit {
        Unfit::NoMemory
    }
}

impl From<VertexRefusal> for Unfit {
    ghost from_gives = { λ e r. r ≡ Vertex e };

    fn from(e: VertexRefusal) -> Unfit {
        Unfit::Vertex(e)
    }
}

impl From<TriangleRefusal> for Unfit {
    ghost from_gives = { λ e r. r ≡ Triangle e };

    fn from(e: TriangleRefusal) -> Unfit {
        Unfit::Triangle(e)
    }
}

/// Metres in quarter metres.
fn in_quarters(metres: f32) -> u16
    ensures value { (n : ℕ) → Quarter n metres → result ≡ n }
{
    saturating_f32_to_u16(metres * 4.0)
}

fn gather_points(gathering: &mut Gathering, points: &[Point]) -> Result<(), VertexRefusal>
    requires empty { positions_of gathering.old ≡ [] }
    ensures outcome { GathersPoints points.now gathering.old result gathering.new }
{
    for p in points {
        gathering.vertex(in_quarters(p.x), in_quarters(p.y), in_quarters(p.z))?;
    }
    Ok(())
}

fn gather_triangles(
    gathering: &mut Gathering,
    triangles: &[[u16; 3]],
) -> Result<(), TriangleRefusal>
    requires empty { corners_of gathering.old ≡ [] }
    ensures outcome { GathersTriangles triangles.now gathering.old result gathering.new }
{
    for [a, b, c] in triangles {
        gathering.triangle(*a, *b, *c)?;
    }
    Ok(())
}

/// Gathers the points, each as the position that it is in metres, and the triangles.
pub fn regather(heap: Global, points: &[Point], triangles: &[[u16; 3]]) -> Result<Gathering, Unfit>
    ensures outcome { Regathers points.now triangles.now result }
{
    let mut gathering = Gathering::new(heap)?;
    gather_points(&mut gathering, points)?;
    gather_triangles(&mut gathering, triangles)?;
    Ok(gathering)
}

/// Draws the mesh into lists of just the lengths that it takes, and gathers what was drawn. It is refused only where there
/// is no memory.
pub fn redraw(heap: Global, mesh: &Mesh) -> Result<Gathering, Unfit>
    ensures outcome { ComesBackWhole mesh.now result }
{
    let edges = mesh.edges();
    let vertex_count = usize::from(count_vertices(edges));
    let triangle_count = usize::from(live_triangles(edges));
    let mut points = vec![in heap; Point::default(); vertex_count]?;
    let mut triangles = vec![in heap; [0; 3]; triangle_count]?;
    draw(mesh, &mut points, &mut triangles).unwrap();
    regather(heap, &points, &triangles)
}
