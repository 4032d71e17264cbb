//! The gauges that a surface is opened with.
ghost use Rattle.std.specs.Prelude.{◌≡◌};
ghost use Rattle.session.specs.Gauges.{most_vertices, Numbered};

use crate::draft::PLANES_ENTRIES;
use crate::refusal::Refusal;

/// What a collapse costs by: the planes of the triangles, or the volume that it sweeps.
#[derive(Clone, Copy)]
pub enum Gauge {
    Planes,
    Sweep,
}

impl Gauge {
    /// The most vertices that a surface may have that is opened on the gauge.
    pub fn most_vertices(self) -> usize
        ensures value { result ≡ most_vertices self }
    {
        match self {
            Gauge::Planes => PLANES_ENTRIES,
            Gauge::Sweep => 1024,
        }
    }
}

impl TryFrom<u8> for Gauge {
    type Error = Refusal;

    ghost try_from_gives = { Numbered };

    fn try_from(number: u8) -> Result<Gauge, Refusal> {
        match number {
            0 => Ok(Gauge::Planes),
            1 => Ok(Gauge::Sweep),
            _ => Err(Refusal::UnknownGauge),
        }
    }
}
