//! Tables as texts: a row is a line or more, and its parts stand between marks.

use std::test::Fail;

/// What stands before the first such mark, and what stands behind it.
pub fn parted(text: &str, mark: char) -> Result<(&str, &str), Fail> {
    match text.split_once(mark) {
        Some(parts) => Ok(parts),
        None => Err(Fail::new("a row lacks a part")),
    }
}
