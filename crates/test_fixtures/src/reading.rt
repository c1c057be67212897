//! What texts stand for, as the readers give it.

ghost use Rattle.std.specs.Prelude.{IfOk};
ghost use Rattle.vs_reader.specs.Names.{HaveCounts};
ghost use Rattle.vs_reader.specs.Rows.{AreCounted};

use std::alloc::{AllocError, Global};
use std::test::Fail;
use vs_instance::Instance;
use vs_reader::{Input, MAX_BYTES};

/// The parts, one after another.
pub fn joined(alloc: Global, parts: &[&str]) -> Result<Vec<u8>, AllocError> {
    let mut text = Vec::new(alloc);
    for part in parts {
        text.extend_from_slice(part.as_bytes())?;
    }
    Ok(text)
}

/// These parts of a text and rows behind them, with other rows in the place of one.
pub fn text_with(
    alloc: Global,
    parts: &[&str],
    rows: &[&str],
    place: usize,
    others: &str,
) -> Result<Vec<u8>, AllocError> {
    let mut text = joined(alloc, parts)?;
    for (k, row) in rows.iter().enumerate() {
        let row = if k == place { others } else { *row };
        text.extend_from_slice(row.as_bytes())?;
    }
    Ok(text)
}

/// The words, each on its own.
pub fn owned(alloc: Global, words: &[&str]) -> Result<Vec<String>, AllocError> {
    let mut all = Vec::new(alloc);
    for word in words {
        all.push(String::from_str(alloc, word)?)?;
    }
    Ok(all)
}

/// The instance that a text stands for, with its names and the rows behind it.
pub fn input_of(alloc: Global, text: &[u8]) -> Result<Input, Fail>
    ensures counts { IfOk result (λ input. HaveCounts input.instance input.names) }
    ensures counted { IfOk result (λ input. AreCounted input.before input.rest) }
{
    if text.len() > MAX_BYTES {
        return Err(Fail::new("too long a text"));
    }
    match vs_reader::read(alloc, text) {
        Ok(input) => Ok(input),
        Err(error) => Err(Fail::from(error)),
    }
}

/// The instance that these parts of a text stand for.
pub fn instance_of(alloc: Global, parts: &[&str]) -> Result<Instance, Fail> {
    let text = joined(alloc, parts)?;
    Ok(input_of(alloc, &text)?.instance)
}
