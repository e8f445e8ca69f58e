use crate::link::Link;

/// The two links of a node or of a sentinel.
#[derive(Clone, Copy)]
pub struct Links {
    pub prev: Link,
    pub next: Link,
}
