//! Linking the half-edges that begin at one vertex.
ghost use Rattle.std.specs.Prelude.{◌≡◌, ℕ, ◌<◌, ◌≤◌, length, None, slice_index_or};
ghost use Rattle.surface.specs.Surface.{next};
ghost use Rattle.gathering.specs.Limits.{Numbered};
ghost use Rattle.judging.specs.Chains.{Chained};

/// The next half-edge of the same triangle.
// Kept: it steps twice from an index to the half-edge before, so it takes a usize; the mesh's own takes a u16, and so asks for no limit.
pub(super) fn following(h: usize) -> usize
    requires small { h < 6144 }
    ensures value { result ≡ next h }
{
    if h % 3 == 2 { h - 2 } else { h + 1 }
}

/// Chains the half-edges that begin at one vertex, from the last to the first.
pub(super) fn chain(corners: &[u16], last: &mut [Option<u16>], link: &mut [Option<u16>])
    requires numbered { Numbered corners.now (length last.old) }
    requires few { length corners.now ≤ 6144 }
    requires room { length link.old ≡ length corners.now }
    requires empty { (v : ℕ) → v < length last.old → slice_index_or last.old v None ≡ None }
    ensures chained { Chained corners.now (length last.old) last.new link.new }
{
    for (h, corner) in corners.iter().enumerate() {
        let v = *corner as usize;
        link[h] = last[v];
        last[v] = Some(h as u16);
    }
}
