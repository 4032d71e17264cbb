//! Thins an octahedron, a torus and a tetrahedron, brings each back and thins it again.
#![tactic(auto)]

use anyhow::anyhow;
use gathering::gathering::Gathering;
use mesh::mesh::Mesh;
use mesh::mesh::opening::{Opening, open};

const OCTAHEDRON: [[u16; 3]; 6] = [
    [20, 10, 10],
    [10, 20, 10],
    [0, 10, 10],
    [10, 0, 10],
    [10, 10, 20],
    [10, 10, 0],
];

const OCTAHEDRON_SIDES: [[u16; 3]; 8] = [
    [0, 1, 4],
    [1, 2, 4],
    [2, 3, 4],
    [3, 0, 4],
    [1, 0, 5],
    [2, 1, 5],
    [3, 2, 5],
    [0, 3, 5],
];

const TETRAHEDRON: [[u16; 3]; 4] = [[0, 0, 0], [9, 0, 0], [0, 9, 0], [0, 0, 9]];

const TETRAHEDRON_SIDES: [[u16; 3]; 4] = [[0, 2, 1], [0, 1, 3], [0, 3, 2], [1, 2, 3]];
// six rings of four vertices
const TORUS: [[u16; 3]; 24] = [
    [250, 127, 139],
    [200, 127, 165],
    [174, 127, 115],
    [224, 127, 89],
    [189, 234, 139],
    [164, 190, 165],
    [150, 168, 115],
    [175, 211, 89],
    [65, 234, 139],
    [90, 190, 165],
    [104, 168, 115],
    [79, 211, 89],
    [4, 127, 139],
    [54, 127, 165],
    [80, 127, 115],
    [30, 127, 89],
    [65, 20, 139],
    [90, 64, 165],
    [104, 86, 115],
    [79, 43, 89],
    [189, 20, 139],
    [164, 64, 165],
    [150, 86, 115],
    [175, 43, 89],
];

/// Gathers the vertices and the triangles.
fn gather(
    rt: &HostRuntime,
    vertices: &[[u16; 3]],
    triangles: &[[u16; 3]],
) -> anyhow::Result<Gathering> {
    let mut g = Gathering::new(rt.alloc())?;
    for [x, y, z] in vertices {
        let _ = g.vertex(*x, *y, *z);
    }
    for [a, b, c] in triangles {
        let _ = g.triangle(*a, *b, *c);
    }
    Ok(g)
}

/// The triangles between ring `i` of the torus and the next one.
fn join_rings(g: &mut Gathering, i: u16) {
    let here = 4 * (i % 6);
    let there = 4 * ((i % 6 + 1) % 6);
    for j in 0..4 {
        let k = (j + 1) % 4;
        let _ = g.triangle(here + j, there + j, there + k);
        let _ = g.triangle(here + j, there + k, here + k);
    }
}

/// Collapses the first side that may be collapsed.
fn collapse_one(mesh: &mut Mesh, half_edges: u16) -> bool {
    (0..half_edges).any(|h| {
        let u = mesh.edges().start(h);
        let w = mesh.edges().end(h);
        mesh.edges().is_live(h) && mesh.collapse(u, w).is_ok()
    })
}

/// How many half-edges differ from how they were gathered.
fn changed(mesh: &Mesh, corners: &[u16]) -> usize {
    (0..6144)
        .zip(corners)
        .filter(|(h, v)| mesh.edges().start(*h) != **v || !mesh.edges().is_live(*h))
        .count()
}

/// Thins the surface as far as it goes, back and forth again, and tells what it saw.
fn thin(rt: &HostRuntime, name: &str, gathering: Gathering) -> anyhow::Result<()> {
    let corners = gathering.corners().to_vec(rt.alloc())?;
    let count = corners.len().min(6144) as u16;
    let Ok(Opening { mut mesh, .. }) = open(rt.alloc(), gathering) else {
        return Err(anyhow!("not opened"));
    };
    let _ = (0..1024).all(|_| collapse_one(&mut mesh, count));
    let far = mesh.position();
    let thinned = changed(&mesh, &corners);
    let _ = (0..1024).all(|_| mesh.split().is_some());
    let back = changed(&mesh, &corners);
    let _ = (0..1024).all(|_| mesh.redo().is_some());
    let again = changed(&mesh, &corners);
    let end = mesh.position();
    println!(rt;
        "{name}: {far} collapses change {thinned} half-edges, taken back {back}, done again {again}, at {end}"
    )?;
    Ok(())
}

fn main(rt: HostRuntime) -> anyhow::Result<()> {
    let octahedron = gather(&rt, &OCTAHEDRON, &OCTAHEDRON_SIDES)?;
    thin(&rt, "octahedron", octahedron)?;
    let mut torus = gather(&rt, &TORUS, &[])?;
    for i in 0..6 {
        join_rings(&mut torus, i);
    }
    thin(&rt, "torus", torus)?;
    let tetrahedron = gather(&rt, &TETRAHEDRON, &TETRAHEDRON_SIDES)?;
    thin(&rt, "tetrahedron", tetrahedron)
}
