//! Transfer syntaxes.

/// How values become octets.
#[derive(Clone, Copy)]
pub enum Syntax {
    /// Canonical aligned PER (X.691).
    Aligned,
    /// Canonical unaligned PER (X.691).
    Unaligned,
    /// DER (X.690).
    Der,
}
