use vd_outside::Line;

/// What there is of a child's next line.
#[derive(Drop)]
pub(crate) enum Next {
    /// All of it.
    Line(Line),
    /// There is none: the output has ended.
    End,
    /// Not all of it so far.
    Later,
}
