//! Thins an octahedron on both gauges, by calls one at a time and by a list of them, draws it, and prints what is answered.
#![tactic(auto)]

use anyhow::anyhow;
use drawing::point::Point;
use gathering::gathering::Gathering;
use gauge::telling::TellingGauge;
use judging::verdict::Counts;
use ledger::call::{Answer, Call, Refusal};
use mesh::mesh::permits::CollapseRefusal;
use opened_surface::opened::Opened;
use opened_surface::opened::opening::{Unopened, Why, open};
use opened_surface::opened::thinned::thin;
use planes::planes::Planes;
use queue::Key;
use std::io;
use sweep::Sweep;

const VERTICES: [[u16; 3]; 6] = [
    [20, 10, 10],
    [10, 20, 10],
    [0, 10, 10],
    [10, 0, 10],
    [10, 10, 20],
    [10, 10, 0],
];

const TRIANGLES: [[u16; 3]; 8] = [
    [0, 1, 4],
    [1, 2, 4],
    [2, 3, 4],
    [3, 0, 4],
    [1, 0, 5],
    [2, 1, 5],
    [3, 2, 5],
    [0, 3, 5],
];

const CALLS: [Call; 12] = [
    Call::Collapse(5, 4),
    Call::Collapse(5, 0),
    Call::Step,
    Call::Step,
    Call::Split,
    Call::Redo,
    Call::Redo,
    Call::Go(0),
    Call::Split,
    Call::Go(1),
    Call::Step,
    Call::Go(3),
];

/// The octahedron.
fn octahedron(rt: &HostRuntime) -> anyhow::Result<Gathering> {
    let mut gathering = Gathering::new(rt.alloc())?;
    for [x, y, z] in &VERTICES {
        let _ = gathering.vertex(*x, *y, *z);
    }
    for [a, b, c] in &TRIANGLES {
        let _ = gathering.triangle(*a, *b, *c);
    }
    Ok(gathering)
}

fn show_refused(rt: &HostRuntime, number: u8) -> io::Result<()> {
    println!(rt; "refused {number}")
}

fn show_counts(rt: &HostRuntime, counts: Counts) -> io::Result<()> {
    let Counts {
        vertices,
        triangles,
        euler,
        pieces,
    } = counts;
    println!(rt;
        "{vertices} vertices, {triangles} triangles, Euler number {euler}, pieces {pieces}"
    )
}

/// Prints the figures of a cost after some words.
fn show_cost<G: TellingGauge>(rt: &HostRuntime, words: &str, cost: &G::Cost) -> io::Result<()> {
    let (amount, divisor) = G::figures(cost);
    println!(rt; "{words} {amount} / {divisor}")
}

/// Prints what the collapse of `u` to `w` would cost.
fn show_price<G: TellingGauge>(
    rt: &HostRuntime,
    opened: &Opened<G>,
    u: u16,
    w: u16,
) -> anyhow::Result<()> {
    print!(rt; "{u} to {w} ")?;
    match opened.cost(u, w) {
        Some(cost) => show_cost::<G>(rt, "would cost", &cost)?,
        None => println!(rt; "is no side")?,
    }
    Ok(())
}

fn show_collapse<G: TellingGauge>(
    rt: &HostRuntime,
    outcome: Result<G::Cost, CollapseRefusal>,
) -> io::Result<()> {
    match outcome {
        Ok(cost) => show_cost::<G>(rt, "collapsed for", &cost),
        Err(why) => show_refused(rt, why.number()),
    }
}

fn show_step<G: TellingGauge>(
    rt: &HostRuntime,
    outcome: Option<Key<G::Cost>>,
) -> anyhow::Result<()> {
    match outcome {
        Some(Key { cost, u, w }) => {
            print!(rt; "{u} to {w} ")?;
            show_cost::<G>(rt, "stepped for", &cost)?;
        }
        None => show_refused(rt, Refusal::NonePermitted.number())?,
    }
    Ok(())
}

/// Prints the position after a split or a redo, or the refusal that stands for there being none.
fn show_position(rt: &HostRuntime, outcome: Option<usize>, otherwise: Refusal) -> io::Result<()> {
    match outcome {
        Some(position) => println!(rt; "at {position}"),
        None => show_refused(rt, otherwise.number()),
    }
}

/// Goes to the position `target`, and prints where that is.
fn show_go<G: TellingGauge>(
    rt: &HostRuntime,
    opened: &mut Opened<G>,
    target: usize,
) -> io::Result<()> {
    match opened.go(target) {
        Some(_) => {
            let position = opened.mesh().position();
            println!(rt; "at {position}")
        }
        None => show_refused(rt, Refusal::BeyondLog.number()),
    }
}

/// Prints the answer to one of a list of calls.
fn show_answer<G: TellingGauge>(rt: &HostRuntime, answer: &Answer<G::Cost>) -> anyhow::Result<()> {
    match answer {
        Answer::Collapsed(cost) => show_cost::<G>(rt, "collapsed for", cost)?,
        Answer::Stepped { u, w, cost } => {
            print!(rt; "{u} to {w} ")?;
            show_cost::<G>(rt, "stepped for", cost)?;
        }
        Answer::Split(position) => println!(rt; "split to {position}")?,
        Answer::Redone(position) => println!(rt; "redone to {position}")?,
        Answer::Went(_) => println!(rt; "went")?,
        Answer::Refused(refusal) => show_refused(rt, refusal.number())?,
    }
    Ok(())
}

/// Steps until none is permitted, with collapses that are refused in between.
fn try_collapses<G: TellingGauge>(rt: &HostRuntime, opened: &mut Opened<G>) -> anyhow::Result<()> {
    show_price(rt, opened, 0, 1)?;
    show_price(rt, opened, 0, 2)?;
    show_step::<G>(rt, opened.step())?;
    show_collapse::<G>(rt, opened.collapse(0, 3))?;
    show_collapse::<G>(rt, opened.collapse(1, 2))?;
    show_collapse::<G>(rt, opened.collapse(4, 2))?;
    show_price(rt, opened, 4, 1)?;
    show_step::<G>(rt, opened.step())?;
    show_step::<G>(rt, opened.step())
}

/// Goes to and fro on the log of two collapses, and then collapses another way.
fn try_moves<G: TellingGauge>(rt: &HostRuntime, opened: &mut Opened<G>) -> anyhow::Result<()> {
    show_position(rt, opened.redo(), Refusal::NothingAhead)?;
    show_position(rt, opened.split(), Refusal::NothingDone)?;
    show_position(rt, opened.redo(), Refusal::NothingAhead)?;
    show_go(rt, opened, 0)?;
    show_position(rt, opened.split(), Refusal::NothingDone)?;
    show_go(rt, opened, 3)?;
    show_go(rt, opened, 1)?;
    show_collapse::<G>(rt, opened.collapse(4, 3))?;
    show_position(rt, opened.redo(), Refusal::NothingAhead)?;
    show_counts(rt, opened.counts())?;
    Ok(())
}

fn show_point(rt: &HostRuntime, point: Point) -> io::Result<()> {
    let Point { x, y, z } = point;
    println!(rt; "point {x} {y} {z}")
}

fn show_triangle(rt: &HostRuntime, corners: [u16; 3]) -> io::Result<()> {
    let [a, b, c] = corners;
    println!(rt; "triangle {a} {b} {c}")
}

/// Prints the points and the triangles of two lists.
fn show_drawn(rt: &HostRuntime, points: &[Point], triangles: &[[u16; 3]]) -> io::Result<()> {
    for point in points {
        show_point(rt, *point)?;
    }
    for corners in triangles {
        show_triangle(rt, *corners)?;
    }
    Ok(())
}

/// Draws the surface into lists that are too short and into lists that are long enough.
fn try_drawing<G: TellingGauge>(rt: &HostRuntime, opened: &Opened<G>) -> anyhow::Result<()> {
    let mut few_points = [Point::default(); 3];
    let mut points = [Point::default(); 6];
    let mut triangles = [[0; 3]; 8];
    if let Err(refusal) = opened.draw(&mut few_points, &mut triangles) {
        show_refused(rt, refusal.number())?;
    }
    if let Ok((vertex_count, triangle_count)) = opened.draw(&mut points, &mut triangles) {
        show_drawn(rt, &points[..vertex_count], &triangles[..triangle_count])?;
    }
    Ok(())
}

/// Opens the octahedron on the gauge, and makes calls on it one at a time.
fn try_calls<G: TellingGauge + Drop>(rt: &HostRuntime, gauge: G) -> anyhow::Result<()> {
    let gathering = octahedron(rt)?;
    let mut opened = open(rt.alloc(), gathering, gauge).map_err(|_| anyhow!("not opened"))?;
    show_counts(rt, opened.counts())?;
    try_collapses(rt, &mut opened)?;
    try_moves(rt, &mut opened)?;
    try_drawing(rt, &opened)
}

/// Opens the octahedron on the gauge and makes a list of calls on it, all at once.
fn try_list<G: TellingGauge + Drop>(rt: &HostRuntime, gauge: G) -> anyhow::Result<()> {
    let thinned = thin(rt.alloc(), octahedron(rt)?, gauge, &CALLS).map_err(|_| anyhow!(
        "not opened"
    ))?;
    for answer in &thinned.answers {
        show_answer::<G>(rt, answer)?;
    }
    show_counts(rt, thinned.opened.counts())?;
    Ok(())
}

/// Opens the octahedron on planes with a table for five vertices: it is refused and comes back as it was.
fn try_small_table(rt: &HostRuntime) -> anyhow::Result<()> {
    let gauge = Planes::new(rt.alloc(), 5)?;
    let Err(
        Unopened {
            gathering,
            gauge,
            why,
        },
    ) = open(rt.alloc(), octahedron(rt)?, gauge)
    else {
        return Err(anyhow!("opened"));
    };
    let Why::Refused(refusal) = why else {
        return Err(anyhow!("no memory"));
    };
    show_refused(rt, refusal.number())?;
    let vertices = gathering.positions().len();
    let corners = gathering.corners().len();
    let most = gauge.most_vertices();
    println!(rt; "{vertices} vertices and {corners} corners for a table of {most} are back")?;
    Ok(())
}

fn main(rt: HostRuntime) -> anyhow::Result<()> {
    try_small_table(&rt)?;
    println!(rt; "planes")?;
    try_calls(&rt, Planes::new(rt.alloc(), 400)?)?;
    try_list(&rt, Planes::new(rt.alloc(), 400)?)?;
    println!(rt; "sweep")?;
    try_calls(&rt, Sweep::new())?;
    try_list(&rt, Sweep::new())
}
