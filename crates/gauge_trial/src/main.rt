//! Puts a cost on every side of an octahedron by both gauges, and merges and parts their entries.
#![tactic(auto)]

use anyhow::anyhow;
use fraction::Fraction;
use gathering::gathering::Gathering;
use gauge::Gauge;
use mesh::mesh::Mesh;
use mesh::mesh::opening::open;
use order::Ordered;
use planes::planes::Planes;
use sweep::Sweep;

const VERTICES: [[u16; 3]; 6] = [
    [20, 10, 10],
    [10, 20, 10],
    [0, 10, 10],
    [10, 0, 10],
    [10, 10, 20],
    [10, 10, 0],
];

const TRIANGLES: [[u16; 3]; 8] = [
    [0, 1, 4],
    [1, 2, 4],
    [2, 3, 4],
    [3, 0, 4],
    [1, 0, 5],
    [2, 1, 5],
    [3, 2, 5],
    [0, 3, 5],
];

/// The octahedron.
fn octahedron(rt: &HostRuntime) -> anyhow::Result<Mesh> {
    let mut g = Gathering::new(rt.alloc())?;
    for [x, y, z] in VERTICES {
        let _ = g.vertex(x, y, z);
    }
    for [a, b, c] in TRIANGLES {
        let _ = g.triangle(a, b, c);
    }
    let opening = open(rt.alloc(), g).map_err(|_| anyhow!("not opened"))?;
    Ok(opening.mesh)
}

/// Prints the figures of the cost of collapsing `u` to `w`, if it has one.
fn show<G: Gauge>(rt: &HostRuntime, mesh: &Mesh, gauge: &G, u: u16, w: u16) -> anyhow::Result<()> {
    match gauge.cost(mesh, u, w).map(|cost| G::figures(&cost)) {
        Some((amount, divisor)) => println!(rt; "{u} {w}: {amount} / {divisor}")?,
        None => println!(rt; "{u} {w}: no side")?,
    }
    Ok(())
}

/// Prints the cost of each pair from `u`.
fn show_from<G: Gauge>(rt: &HostRuntime, mesh: &Mesh, gauge: &G, u: u16) -> anyhow::Result<()> {
    for w in 0..6 {
        show(rt, mesh, gauge, u, w)?;
    }
    Ok(())
}

/// Opens the gauge, prints all costs, collapses 0 to 1 with its merge, prints those of 4, and takes both back.
fn try_gauge<G: Gauge>(rt: &HostRuntime, mesh: &mut Mesh, gauge: &mut G) -> anyhow::Result<()> {
    gauge.open(mesh).map_err(|_| anyhow!("too many vertices"))?;
    for u in 0..6 {
        show_from(rt, mesh, gauge, u)?;
    }
    let _ = mesh.collapse(0, 1);
    let _ = gauge.merge(0, 1);
    println!(rt; "after 0 to 1")?;
    show_from(rt, mesh, gauge, 4)?;
    let _ = mesh.split();
    let _ = gauge.part(0, 1);
    println!(rt; "taken back")?;
    show_from(rt, mesh, gauge, 4)
}

/// Whether two fractions rank equal.
fn rank_equal(a: u64, m: u16, b: u64, n: u16) -> Option<bool> {
    Some(Fraction::new(a, m)?.same_rank(&Fraction::new(b, n)?))
}

fn main(rt: HostRuntime) -> anyhow::Result<()> {
    let mut mesh = octahedron(&rt)?;
    let mut planes = Planes::new(rt.alloc(), 400)?;
    println!(rt; "planes")?;
    try_gauge(&rt, &mut mesh, &mut planes)?;
    let mut sweep = Sweep::new();
    println!(rt; "sweep")?;
    try_gauge(&rt, &mut mesh, &mut sweep)?;
    let same = rank_equal(4000, 2, 2000, 1).unwrap_or(false);
    println!(rt; "4000 / 2 and 2000 / 1 rank equal: {same}")?;
    Ok(())
}
