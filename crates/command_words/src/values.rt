/// The values of a mode.
#[derive(Clone, Copy, Debug, PartialEq, Eq)]
pub struct Values {
    pub count: u32,
    pub number: u32,
}
