// The words of a table by what they are, each with its number in its section.

#[derive(Clone, Copy)]
pub enum Part {
    Header,
    Port(u32),
    Network(u32),
    Waits(u32),
    Source(u32),
    Expression(u32),
    Rule(u32),
    List(u32),
    Item(u32),
}
