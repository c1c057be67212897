//! Plans, and the verdict on their documents.

use crate::runs::{ran, ran_past};
use mdvsp::Status;
use std::alloc::Global;
use std::sync::Wait;
use std::test::Fail;
use std::thread::Threads;
use vs_crew::Gate;

/// How planning ends, the document that is written, how judging it ends, and the row of the verdict.
#[derive(Drop)]
pub struct Audited {
    pub status: Status,
    pub document: Vec<u8>,
    pub verdict: Status,
    pub row: Vec<u8>,
}

/// Plans with these words what is read, and judges the document that this writes behind the records of the instance.
pub fn audit<R: Threads + Wait + Sync, G: Gate + Sync>(
    rt: &R,
    alloc: Global,
    words: &[&str],
    input: &[u8],
    records: &[u8],
    gate: &G,
) -> Result<Audited, Fail> {
    let (status, document) = ran_past(rt, alloc, words, input.to_vec(alloc)?, gate)?;
    let mut both = records.to_vec(alloc)?;
    both.extend_from_slice(&document)?;
    let (verdict, row) = ran(rt, alloc, &["check"], both)?;
    Ok(Audited {
        status,
        document,
        verdict,
        row,
    })
}
