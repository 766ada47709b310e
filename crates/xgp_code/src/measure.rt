// The two measures of the printer, each kept apart from the other.

// Dots, across.
#[derive(Clone, Copy)]
pub struct Dots(pub i32);

// Scan lines, down.
#[derive(Clone, Copy)]
pub struct Lines(pub i32);
