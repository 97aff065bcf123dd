ghost use Rattle.std.specs.Prelude.{◌≡◌, ◌+◌, IfOk};

use crate::{Change, Known, Start};
use std::alloc::{AllocError, Global};

// A sum of all that was told.
struct Sum;

impl Start<u64, u64> for Sum {
    ghost first = { λ about. about };
}

impl Change<u8, u64> for Sum {
    ghost use Rattle.std.specs.Prelude.{◌+◌};

    ghost after = { λ said sum. sum + said };
}

// The sum that is known after two changes.
fn after_two(alloc: Global, first: u8, second: u8) -> Result<Known<u8, u64, u64, Sum>, AllocError>
    ensures { IfOk result (λ known. known.seat.me.0 ≡ 40 + first + second) }
{
    let mut known = Known::new(alloc, &40)?;
    known.change::<Sum>(&first);
    known.change::<Sum>(&second);
    Ok(known)
}

#[test]
fn what_is_known_goes_on(rt: HostRuntime) {
    assert!(rt; after_two(rt.alloc(), 1, 2).is_ok());
}
