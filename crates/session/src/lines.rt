//! The lines of the answer.
ghost use Rattle.std.specs.Prelude.{◌≡◌, ◌++◌, vec_len, OnOk};
ghost use Rattle.gathering.specs.Model.{triangle_count};
ghost use Rattle.mesh.specs.Model.{held};
ghost use Rattle.session.specs.Lines.{text, texts, triangle_lines, after, newline, four, numbers, named, triangle, refused};
ghost use Rattle.session.specs.Numbers.{number as number_of};
ghost use Rattle.session.specs.Session.{fault_lines};
ghost use Rattle.session.specs.Still.{gathered_lines};

use crate::command::Fault;
use crate::refusal::Refusal;
use crate::reply::Priced;
use judging::verdict::Counts;
use mesh::halfedges::HalfEdges;
use std::alloc::AllocError;

/// The line of a name that was taken.
pub fn write_name(out: &mut Vec<u8>, name: &[u8]) -> Result<(), AllocError>
    ensures written { OnOk result (out.new.items ≡ out.old.items ++ text (named name.now)) }
{
    out.extend_from_slice(b"name ")?;
    out.extend_from_slice(name)?;
    out.extend_from_slice(b"\n")
}

/// The line of a word and counts.
// Kept: a `Vec` that is written to by `write!` fails by `io::Error`, not by `AllocError`, so each line is formatted and then added.
// Kept: one function for this and `write_priced` is generic over types that are printed, with a clause on each, and is longer than the two.
pub fn write_counts(out: &mut Vec<u8>, word: &str, counts: Counts) -> Result<(), AllocError>
    ensures written { OnOk result (out.new.items ≡ out.old.items ++ (word.now ++ four counts)) }
{
    let line = format!(in *out.allocator();
        "{word} {} {} {} {}\n",
        counts.vertices, counts.triangles, counts.euler, counts.pieces,
    )?;
    out.extend_from_slice(line.as_bytes())
}

/// The line of a word and a collapse, with the figures of its cost.
pub fn write_priced(out: &mut Vec<u8>, word: &str, priced: Priced) -> Result<(), AllocError>
    ensures written { OnOk result (out.new.items ≡ out.old.items ++ (word.now ++ numbers priced.u priced.w priced.amount priced.divisor)) }
{
    let line = format!(in *out.allocator();
        "{word} {} {} {} {}\n",
        priced.u, priced.w, priced.amount, priced.divisor,
    )?;
    out.extend_from_slice(line.as_bytes())
}

/// The line of a word and a position.
pub fn write_position(out: &mut Vec<u8>, word: &str, position: usize) -> Result<(), AllocError>
    ensures written { OnOk result (out.new.items ≡ out.old.items ++ (word.now ++ (after position ++ newline))) }
{
    let line = format!(in *out.allocator(); "{word} {position}\n")?;
    out.extend_from_slice(line.as_bytes())
}

/// The line of one triangle.
pub fn write_triangle(out: &mut Vec<u8>, t: usize, a: u16, b: u16, c: u16) -> Result<(), AllocError>
    ensures written { OnOk result (out.new.items ≡ out.old.items ++ text (triangle t a b c)) }
{
    let line = format!(in *out.allocator(); "tri {t} {a} {b} {c}\n")?;
    out.extend_from_slice(line.as_bytes())
}

/// A line for each live triangle, by rising number.
pub fn write_triangles(out: &mut Vec<u8>, edges: &HalfEdges) -> Result<(), AllocError>
    ensures written { OnOk result (out.new.items ≡ out.old.items ++ texts (triangle_lines (held edges.now) (vec_len edges.now.triangles))) }
{
    for t in 0..edges.half_edge_count() / 3 {
        let h = (3 * t) as u16;
        if edges.is_live(h) {
            write_triangle(out, t, edges.start(h), edges.end(h), edges.third(h))?;
        }
    }
    Ok(())
}

/// A line for each triangle of these corners, three each, by rising number.
pub fn write_gathered(out: &mut Vec<u8>, corners: &[u16]) -> Result<(), AllocError>
    ensures written { OnOk result (out.new.items ≡ out.old.items ++ texts (gathered_lines corners.now (triangle_count corners.now))) }
{
    for t in 0..corners.len() / 3 {
        let [a, b, c] = [corners[3 * t], corners[3 * t + 1], corners[3 * t + 2]];
        write_triangle(out, t, a, b, c)?;
    }
    Ok(())
}

/// The line of a refused command, whose first byte stands at `at`.
pub fn write_refused(out: &mut Vec<u8>, refusal: Refusal, at: usize) -> Result<(), AllocError>
    ensures written { OnOk result (out.new.items ≡ out.old.items ++ text (refused (number_of refusal) at)) }
{
    let number = refusal.number();
    let line = format!(in *out.allocator(); "refused {number} {at}\n")?;
    out.extend_from_slice(line.as_bytes())
}

/// What is said where no command is read: nothing where the input is over.
pub fn write_fault(out: &mut Vec<u8>, fault: Fault, at: usize) -> Result<(), AllocError>
    ensures written { OnOk result (out.new.items ≡ out.old.items ++ texts (fault_lines at fault)) }
{
    match fault {
        Fault::Over => Ok(()),
        Fault::Unknown => write_refused(out, Refusal::UnknownCommand, at),
        Fault::Missing => write_refused(out, Refusal::MissingOperands, at),
    }
}
