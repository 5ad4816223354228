//! Changes of a text, a line of which is another: how tests make further profiles and certificates.

use std::alloc::{AllocError, Global};
use std::test::Fail;

// Puts lines, with `; ` between them, after a text.
fn push_lines(text: &mut String, lines: &str) -> Result<(), AllocError> {
    for (n, line) in lines.split("; ").enumerate() {
        if n > 0 {
            text.push('\n')?;
        }
        text.push_str(line)?;
    }
    Ok(())
}

/// The text of these parts, each of them lines with `; ` between them.
pub fn joined(alloc: Global, parts: &[&str]) -> Result<String, AllocError> {
    let mut text = String::new(alloc);
    for part in parts {
        push_lines(&mut text, part)?;
    }
    Ok(text)
}

// The text with a change: `OLD -> NEW`, or `OLD` alone, which takes it out.
fn changed(alloc: Global, text: &str, change: &str) -> Result<String, Fail> {
    let (old, new) = change.split_once(" -> ").unwrap_or((change, ""));
    let (front, behind) = text.split_once(old).ok_or("no such line")?;
    Ok(joined(alloc, &[front, new, behind])?)
}

/// The text with some changes in turn, with ` | ` between them: `OLD -> NEW` puts new lines, with `; ` between
/// them, in place of the first OLD, and `OLD` alone takes it out. No text is changed that has no OLD.
pub fn with(alloc: Global, text: &str, changes: &str) -> Result<String, Fail> {
    let mut text = String::from_str(alloc, text)?;
    for change in changes.split(" | ") {
        text = changed(alloc, text.as_str(), change)?;
    }
    Ok(text)
}
