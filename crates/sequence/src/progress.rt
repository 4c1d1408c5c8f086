// What a call answers of the piece that it was lent (specs/Piece.antt): how much of it was taken, how many octets were written into the
// other buffer, and the reader or the writer behind them.
#[derive(Clone, Copy)]
pub struct Progress<S> {
    pub state: S,
    pub taken: usize,
    pub written: usize,
}
