//! Calls on an opened surface, and the answers to them.
ghost use Rattle.std.specs.Prelude.{◌≡◌};
ghost use Rattle.session.specs.Answers.{CalledOn};
ghost use Rattle.session.specs.Calls.{priced};

use crate::refusal::Refusal;
use crate::reply::{Priced, Reply};
use gauge::telling::TellingGauge;
use ledger::call;
use ledger::call::Call;
use opened_surface::opened::Opened;
use queue::Key;

/// The collapse of `u` to `w`, with the figures of its cost.
fn priced<G: TellingGauge>(u: u16, w: u16, cost: &G::Cost) -> Priced
    ensures value { result ≡ priced G.Gauge u w cost.now }
{
    let (amount, divisor) = G::figures(cost);
    Priced {
        u,
        w,
        amount,
        divisor,
    }
}

/// Makes a call on an opened surface, and answers it.
pub fn make_call<'a, G: TellingGauge>(
    opened: &mut Opened<G>,
    call: Call,
) -> Result<Reply<'a>, Refusal>
    ensures replied { CalledOn G.Gauge G.Cost.Ordered opened.old call result opened.new }
{
    match call {
        Call::Collapse(u, w) => {
            let cost = opened.collapse(u, w)?;
            Ok(Reply::Collapsed(priced::<G>(u, w, &cost)))
        }
        Call::Step => {
            let Key { cost, u, w } = opened.step().ok_or(call::Refusal::NonePermitted)?;
            Ok(Reply::Stepped(priced::<G>(u, w, &cost)))
        }
        Call::Split => {
            let position = opened.split().ok_or(call::Refusal::NothingDone)?;
            Ok(Reply::Split(position))
        }
        Call::Redo => {
            let position = opened.redo().ok_or(call::Refusal::NothingAhead)?;
            Ok(Reply::Redone(position))
        }
        Call::Go(target) => {
            let _moves = opened.go(target).ok_or(call::Refusal::BeyondLog)?;
            Ok(Reply::Went(target))
        }
    }
}
