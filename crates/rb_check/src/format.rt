//! The formats for programs.

/// A format for programs.
#[derive(Clone, Copy, Debug, PartialEq, Eq)]
pub enum Format {
    /// An object of JSON a line.
    Json,
    /// A workflow command of GitHub's a line.
    Github,
    /// JUnit's XML, a suite a script.
    Junit,
}
