//! The half-edges that begin at one vertex, one after the other.
ghost use Rattle.std.specs.Prelude.{◌≡◌, ◌≤◌, length};
ghost use Rattle.std.specs.Iterator.{at_most};
ghost use Rattle.judging.specs.Chains.{Descending, below, linked};

/// The half-edges that begin at one vertex, from the last to the first.
#[derive(Drop)]
pub(super) struct Outgoing<'a> {
    pub(super) link: &'a [Option<u16>],
    pub(super) at: Option<u16>,
    ghost descending: { Descending link.now },
    ghost within: { below at ≤ length link.now },
}

impl<'a> Iterator for Outgoing<'a> {
    type Item = u16;

    ghost remaining = { λ s. at_most (below s.at) };

    ghost next_gives = { λ s r t. (r ≡ s.at) × (t.at ≡ linked s.link.now s.at) × (t.link.now ≡ s.link.now) };

    fn next(&mut self) -> Option<u16> {
        let h = self.at?;
        self.at = self.link[h as usize];
        Some(h)
    }
}
