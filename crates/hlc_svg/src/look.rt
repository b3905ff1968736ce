/// The outline of a dot, each in a colour of its own.
#[derive(Clone, Copy)]
pub enum Form {
    /// Round ends.
    Pill,
    /// Corners.
    Box,
    /// Pointed to the left and to the right.
    Hexagon,
    /// Leaning to the right.
    Slant,
    /// Pointed above.
    Peak,
    /// Pointed below.
    Dip,
}

/// How a dot looks.
#[derive(Clone, Copy)]
pub struct Look {
    pub form: Form,
    /// Whether there is a ring around it.
    pub is_ringed: bool,
}
