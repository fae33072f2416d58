//! Room for reading.

/// The buffer of bytes that are held, with room behind them: what reads more bytes of the stream writes them there.
#[derive(Debug, Drop)]
pub struct Room {
    /// The bytes that are held, and behind them bytes that say nothing.
    pub bytes: Vec<u8>,
    /// How many are held.
    pub held: usize,
}
