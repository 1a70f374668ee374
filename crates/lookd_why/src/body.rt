// The query, as it comes from the input.

ghost use Rattle.std.specs.Prelude.{◌≡◌, IfErr, IfOk, IfSome};
ghost use Rattle.lookd_why.specs.Stops.{HasStopCause};
ghost use Rattle.lookd_why.specs.Tellings.{small_input};
ghost use Rattle.lookd_why.specs.declared.stop.Stop.{Stop};

use crate::stop::Stop;
use lk_io::Source;
use lk_val::Bytes;
use std::alloc::Global;

// The most bytes that a query may have.
const BODY_LIMIT: usize = 16_777_216;

/// The input to its end, or None where it is longer than a query may be; then some of it is left.
pub fn read_body<I: Source>(alloc: Global, input: &mut I) -> Result<Option<Bytes>, Stop>
    ensures body { IfOk result (λ body. IfSome (I.left input.old) (λ left. body ≡ small_input left)) }
    ensures cause { HasStopCause Stop.Input (I.faults input.old) (I.faults input.new) result }
    ensures own { IfErr result (λ stop. stop ≡ Stop.Files → ⊥) }
{
    let mut body = Bytes::new(alloc);
    let mut buffer = [0u8; 8192];
    for _turn in 0..=BODY_LIMIT {
        let count = match input.pull(&mut buffer) {
            Ok(count) => count,
            Err(_) => return Err(Stop::Input),
        };
        if count == 0 {
            return Ok(Some(body));
        }
        body.append(&buffer[..count])?;
        if body.len() > BODY_LIMIT {
            return Ok(None);
        }
    }
    // Each turn takes a byte, so the limit is passed before the turns are.
    unreachable!()
}
