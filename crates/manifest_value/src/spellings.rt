//! The spellings of rows.

/// The spellings of a row: the first, by which it is written, and a second one where there is one.
///
/// ```ignore
/// let row = Spellings { first: "proc-macro", second: Some("proc_macro") };
/// ```
#[derive(Drop, Clone, Copy)]
pub struct Spellings {
    /// The spelling that is written.
    pub first: &'static str,
    /// Another spelling that is read as well.
    pub second: Option<&'static str>,
}

/// The spellings of some rows, each one word, or two with `|` between them.
///
/// ```ignore
/// static ROWS: [Spellings; 2] = spelled!["name", "proc-macro" | "proc_macro"];
/// ```
#[macro_export]
macro_rules! spelled {
    (@second) => { None };
    (@second $second:literal) => { Some($second) };
    ($($first:literal $(| $second:literal)?),* $(,)?) => {
        [$($crate::Spellings { first: $first, second: $crate::spelled!(@second $($second)?) }),*]
    };
}
