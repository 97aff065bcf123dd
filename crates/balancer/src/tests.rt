// Plans over memory ends: worked instances, broken lines, and calls that fail.
mod bodies;
mod lines;
mod rounds;

use crate::{PlanFault, plan_text};
use rss_base::{MemorySink, MemorySource};
use std::alloc::Global;
use std::test::Fail;

/// What a plan answered and wrote.
#[derive(Drop)]
pub struct Planned {
    pub answer: Result<(), PlanFault>,
    pub out: Vec<u8>,
}

/// Plans a text, read in pieces of so many bytes, where one read and one write may fail: those of
/// these numbers, where 0 fails none.
pub fn plan(
    alloc: Global,
    text: &[u8],
    cut: u32,
    failing_read: u64,
    failing_write: u64,
) -> Result<Planned, Fail> {
    let mut source = MemorySource::new(
        text.to_vec(alloc)?,
        vec![in alloc; cut]?,
        vec![in alloc; failing_read]?,
    );
    let mut out = MemorySink::new(alloc, 100_000, vec![in alloc; failing_write]?)?;
    let answer = plan_text(alloc, &mut source, &mut out);
    Ok(Planned {
        answer,
        out: out.bytes().to_vec(alloc)?,
    })
}

/// Whether the text has this plan, however it is cut.
pub fn plans(alloc: Global, text: &str, out: &str) -> Result<bool, Fail> {
    for cut in [1, 2, 7, u32::MAX] {
        let planned = plan(alloc, text.as_bytes(), cut, 0, 0)?;
        if planned.answer != Ok(()) || planned.out.as_slice() != out.as_bytes() {
            return Ok(false);
        }
    }
    Ok(true)
}

/// Whether this line of the text is the first bad one, however it is cut, and nothing is written.
pub fn is_bad_at(alloc: Global, text: &[u8], line: u32) -> Result<bool, Fail> {
    for cut in [1, 5, u32::MAX] {
        let planned = plan(alloc, text, cut, 0, 0)?;
        if planned.answer != Err(PlanFault::BadLine { line }) || !planned.out.is_empty() {
            return Ok(false);
        }
    }
    Ok(true)
}
