//! What a command reads and writes.

/// The schema files, the input, the output and the complaints of a command. The complaints receive the line of its outcome.
#[derive(Drop)]
pub struct Environment<'a, F, S, K, E> {
    pub files: &'a mut F,
    pub input: &'a mut S,
    pub output: &'a mut K,
    pub complaints: &'a mut E,
}
