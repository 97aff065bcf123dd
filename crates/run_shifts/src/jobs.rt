ghost use Rattle.std.specs.Prelude.{◌≡◌, ℕ, Some, length, vec_capacity, slice_get};
ghost use Rattle.std.specs.Thread.{IsSync, IsSend};

use std::thread::{Threads, join};

/// Calls f at each job in a thread of its own, and `own` on the caller's thread. The calls for which
/// no thread could be made are made by the caller behind `own`, one after the other. All have
/// returned when it returns, and it takes no memory.
#[cycle(calls)]
pub fn beside<R: Threads + Sync, J: Send + Drop, F: Fn(J) -> J + Sync, B, O: FnOnce() -> B + Drop>(
    rt: &R,
    mut jobs: Vec<J>,
    f: &F,
    own: O,
) -> (Vec<J>, B)
    requires jobs { (i : ℕ) (j : J) → slice_get jobs.items i ≡ Some j → F.pre f.now j }
    requires own { O.pre own }
    ensures count { length result.0.items ≡ length jobs.items }
    ensures room { vec_capacity result.0 ≡ vec_capacity jobs }
    ensures jobs { (i : ℕ) (r : J) → slice_get result.0.items i ≡ Some r → (j : J) × (slice_get jobs.items i ≡ Some j) × F.post f.now j r }
    ensures own { O.post own result.1 }
{
    let Some(last) = jobs.pop() else {
        return (jobs, own());
    };
    let (last, (mut rest, own)) = join(
        rt,
        move || -> J
            requires { F.pre f.now last }
            ensures { F.post f.entry.now last result }
        { f(last) },
        move || -> (Vec<J>, B)
            requires sync { IsSync R.row × IsSync F.row × IsSend J.row }
            requires jobs { (i : ℕ) (j : J) → slice_get jobs.items i ≡ Some j → F.pre f.now j }
            requires own { O.pre own }
            ensures count { length result.0.items ≡ length jobs.items }
            ensures room { vec_capacity result.0 ≡ vec_capacity jobs }
            ensures jobs { (i : ℕ) (r : J) → slice_get result.0.items i ≡ Some r → (j : J) × (slice_get jobs.items i ≡ Some j) × F.post f.entry.now j r }
            ensures own { O.post own result.1 }
        { beside(rt, jobs, f, own) },
    );
    rest.push_reserved(last);
    (rest, own)
}
