//! Which session the program answers for.
ghost use Rattle.std.specs.Prelude.{◌≡◌, List, true, IfOk};
ghost use Rattle.session.specs.Lines.{Line, texts};
ghost use Rattle.session.specs.Session.{Answered};

use session::run::run;
use std::alloc::{AllocError, Global};

/// The lines of a session with calls.
pub fn answer(heap: Global, input: &[u8]) -> Result<Vec<u8>, AllocError>
    ensures answered { IfOk result (λ out. (ls : List Line) × Answered true input.now ls × (out.items ≡ texts ls)) }
{
    run::<true>(heap, input)
}
