/// What is done with the streams of the input.
#[derive(Clone, Copy, Debug)]
pub enum Command {
    /// One stream is read, and a line says what it is.
    Verify,
    /// Changed streams are applied to the full stream before them.
    Apply,
    /// Changed streams that follow one another become one.
    Merge,
}
