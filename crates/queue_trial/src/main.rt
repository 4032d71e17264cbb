//! Gives, changes and takes away some thousand keys, and holds the queue's least to a plain search.
#![tactic(auto)]

ghost use Rattle.std.specs.Prelude.{◌≡◌, ℕ, ◌+◌, ◌<◌, ◌≤◌, IfOk, MatchOption};
ghost use Rattle.queue.specs.Meaning.{Held, NoKeys};

use queue::{Key, Queue, Refusal};
use std::alloc::Global;
use std::io;

const CANDIDATES: usize = 300;

const ROUNDS: u32 = 6000;

/// Numbers that look random, the same in every run.
#[derive(Drop)]
struct Dice {
    state: u64,
}

impl Dice {
    /// A number below `sides`.
    fn roll(&mut self, sides: u64) -> u64
        requires { 0 < sides }
        ensures { result < sides }
    {
        self.state = self
            .state
            .wrapping_mul(6364136223846793005)
            .wrapping_add(1442695040888963407);
        (self.state >> 33) % sides
    }
}

/// How many rounds gave a key, took one away and were refused, and after how many the two answers agreed.
struct Tally {
    given: u32,
    taken: u32,
    refused: u32,
    agreed: u32,
}

/// A key of few costs, so that many rank equal.
fn any_key(dice: &mut Dice) -> Key<u64>
    ensures { (result.cost < 40) × ((result.u < 6) × (result.w < 6)) }
{
    let cost = dice.roll(40);
    let u = dice.roll(6) as u16;
    let w = dice.roll(6) as u16;
    Key { cost, u, w }
}

/// The least key, by looking at each: by cost, then by `u`, then by `w`.
fn plain_least(keys: &[Option<Key<u64>>]) -> Option<Key<u64>>
    ensures { MatchOption result (NoKeys keys.now) (λ k. (n : ℕ) × Held keys.now n k) }
{
    keys.iter()
        .filter_map(|key| *key)
        .min_by_key(|key| (key.cost, key.u, key.w))
}

/// Whether the queue's least has the key that the plain search finds, and is a candidate that has it.
fn agrees(queue: &Queue<u64>, keys: &[Option<Key<u64>>]) -> bool {
    match (queue.least(), plain_least(keys)) {
        (None, None) => true,
        (Some((number, key)), Some(plain)) => {
            key == plain && keys.get(number) == Some(&Some(key))
        }
        _ => false,
    }
}

/// Plays all rounds, and counts each once.
fn play(heap: Global) -> Result<Tally, Refusal>
    ensures { IfOk result (λ t. (t.given + t.taken + t.refused ≡ 6000) × (t.agreed ≤ 6000)) }
{
    let mut queue: Queue<u64> = Queue::new(heap, CANDIDATES)?;
    let mut keys: [Option<Key<u64>>; CANDIDATES] = [None; CANDIDATES];
    let mut dice = Dice { state: 1 };
    let mut tally = Tally {
        given: 0,
        taken: 0,
        refused: 0,
        agreed: 0,
    };
    for round in 0..ROUNDS {
        let number = dice.roll(305) as usize;
        let key = if dice.roll(5) < 2 {
            None
        } else {
            Some(any_key(&mut dice))
        };
        let accepted = queue.set(number, key).is_ok();
        if let Some(held) = keys.get_mut(number) {
            *held = key;
        }
        if !accepted {
            tally.refused += 1;
        } else if key.is_some() {
            tally.given += 1;
        } else {
            tally.taken += 1;
        }
        if accepted == (number < CANDIDATES) && agrees(&queue, &keys) {
            tally.agreed += 1;
        }
    }
    Ok(tally)
}

fn main(rt: HostRuntime) -> io::Result<()> {
    let Ok(tally) = play(rt.alloc()) else {
        return println!(rt; "no queue");
    };
    let Tally {
        given,
        taken,
        refused,
        agreed,
    } = tally;
    println!(rt;
        "{given} keys given, {taken} taken away, {refused} refused; {agreed} of {ROUNDS} rounds agreed"
    )
}
