use rss_base::Link;

/// In which order the bytes of a number stand.
#[derive(Clone, Copy, Debug, PartialEq, Eq)]
pub enum Order {
    Little,
    Big,
}

/// What the fraction of a second counts.
#[derive(Clone, Copy, Debug, PartialEq, Eq)]
pub enum Fraction {
    Micros,
    Nanos,
}

/// How the numbers of a capture are written, and what its frames begin with.
#[derive(Clone, Copy, Debug, PartialEq, Eq)]
pub struct Form {
    pub order: Order,
    pub fraction: Fraction,
    pub link: Link,
}
