// The arcs of the residual graph (specs/Residual.antt).

// Stays two numbers, and no spot: the theorems speak of arcs over any numbers, and a spot keeps its bounds.
// Up from the node of a weekend and a class, down into it, or a book to another weekend.
#[derive(Clone, Copy)]
pub enum Arc {
    Rise(usize, usize),
    Fall(usize, usize),
    Move(usize, usize),
}
