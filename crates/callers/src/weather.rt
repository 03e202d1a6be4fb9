//! The weather by station: values of a type of one's own, whose impls a script wrote.

/// What a station measured: when, how warm it was, and whether it rained or was windy.
#[derive(Clone, Copy, Debug, PartialEq, Eq, PartialOrd, Ord, Hash)]
pub struct Weather {
    pub seconds: u64,
    pub celsius: i16,
    pub raining: bool,
    pub windy: bool,
}
