/// What a name stands for while a source is brought into let-normal form, with its slot.
#[derive(Clone, Copy, PartialEq, Eq)]
pub enum Spot {
    Binding(u16),
    Variable(u16),
    Array(u16),
}
