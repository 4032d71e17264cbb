//! The vertices near which keys may be wrong until the next step.
ghost use Rattle.std.specs.Prelude.{◌<◌, length};
ghost use Rattle.queue.specs.Meaning.{keys_of};
ghost use Rattle.opened_surface.specs.Marks.{Marked, Wider};

use queue::{Key, Queue};

pub(crate) mod marking;

/// Two sets of vertices, each as a queue in which the members have keys.
#[derive(Drop)]
pub(crate) struct Stale {
    // whose half-edges are to be priced again
    pub(crate) repriced: Queue<u64>,
    // whose half-edges with no key are to be priced
    pub(crate) reopened: Queue<u64>,
}

/// Makes `v` a member of the set, if there is a place for it.
fn mark_in(set: &mut Queue<u64>, v: u16)
    ensures wider { Wider (keys_of set.old) (keys_of set.new) }
    ensures marked { v < length (keys_of set.old) → Marked (keys_of set.new) v }
{
    let number = usize::from(v);
    if set.key(number).is_none() {
        let _ = set.set(
            number,
            Some(Key {
                cost: 0,
                u: v,
                w: v,
            }),
        );
    }
}
