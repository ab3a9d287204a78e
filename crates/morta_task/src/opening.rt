/// How an entry opens: its number in the run, from 1; the number of its region in text order, from 1; and the values of the
/// loop's bounds.
#[derive(Clone, Copy, Debug, PartialEq, Eq)]
pub struct Opening {
    pub number: u32,
    pub region: u32,
    pub low: i64,
    pub high: i64,
}
