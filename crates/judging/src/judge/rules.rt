//! The first triangle that breaks a rule on sides.
ghost use Rattle.std.specs.Prelude.{◌≡◌, ℕ, ◌<◌, ◌≤◌, ◌⊎◌, Some};
ghost use Rattle.surface.specs.Read.{whole};
ghost use Rattle.judging.specs.Flaws.{FirstTwice, FirstUnmet};

use super::pairing::Pairs;

/// The lower of `lowest` and the entry of half-edge `h`, where that is below `h`.
fn lower(lowest: usize, h: usize, entry: Option<u16>) -> usize
    ensures falls { result ≤ lowest }
    ensures one_of { (result ≡ lowest) ⊎ ((entry ≡ Some result) × (result < h)) }
    ensures least { (g : ℕ) → entry ≡ Some g → g < h → result ≤ g }
{
    match entry {
        Some(g) if (g as usize) < h && (g as usize) < lowest => g as usize,
        _ => lowest,
    }
}

impl<'a> Pairs<'a> {
    /// The lowest triangle with a side that is a side once more.
    pub(super) fn first_twice(&self) -> Option<u16>
        ensures lowest { (n : ℕ) → FirstTwice (whole self.now.fans.corners.now n) result }
    {
        // Kept: over enumerate, filter_map and min the proof did not close, for it wants the least of the entries that are not passed over.
        let mut lowest = self.first.len();
        for (h, entry) in self.first.iter().enumerate() {
            lowest = lower(lowest, h, *entry);
        }
        if lowest < self.first.len() {
            Some((lowest / 3) as u16)
        } else {
            None
        }
    }

    /// The lowest triangle with a side that no side meets.
    pub(super) fn first_unmet(&self) -> Option<u16>
        ensures lowest { (n : ℕ) → FirstUnmet (whole self.now.fans.corners.now n) result }
    {
        let h = self.twin.iter().position(|t| t.is_none())?;
        Some((h / 3) as u16)
    }
}
