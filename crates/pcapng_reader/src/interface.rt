/// An interface of a section.
#[derive(Clone, Copy, Debug, PartialEq, Eq)]
pub struct Interface {
    /// What its frames begin with (LinkType).
    pub link: u16,
    /// The most bytes that it captures of a frame (SnapLen). 0 says that there is no limit.
    pub snap: u32,
    /// How its times count: `v` below 128 in units of 10^-v seconds, and `v` from 128 on in units of
    /// 2^-(v - 128) seconds (if_tsresol).
    pub resolution: u8,
}
