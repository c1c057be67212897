//! The name that a word is nearest to.

use std::alloc::{AllocError, Global};
use strsim::damerau_levenshtein;

/// The name from which a word differs by the fewest letters. Each may be added, left out, changed, or swapped with the
/// next. None where more than one in three of the name's differ, or more than one of a short name's.
pub fn nearest(
    alloc: Global,
    word: &str,
    names: &[&'static str],
) -> Result<Option<&'static str>, AllocError> {
    let mut found = None;
    let mut least = usize::MAX;
    for name in names {
        let edits = damerau_levenshtein(alloc, word, name)?;
        if edits < least && edits <= (name.len() / 3).max(1) {
            found = Some(*name);
            least = edits;
        }
    }
    Ok(found)
}
