// What a text is made of: a tag, and what follows it.
#[derive(Clone, Copy, Debug, PartialEq)]
pub enum Token {
    // tag c: the binary64 of eight bytes, lowest first
    Constant(f64),
    // tag v: the number of a variable
    Variable(u8),
    // tag l: the number of a line
    Line(u8),
    // tag ^: an exponent
    Power(u8),
    // tag +
    Add,
    // tag -
    Subtract,
    // tag *
    Multiply,
}
