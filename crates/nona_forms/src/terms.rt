/// A whole number of a scalar.
#[derive(Clone, Copy, Debug, PartialEq, Eq)]
pub struct Term {
    /// The scalar's id.
    pub id: u32,
    /// How often it is taken. In a form its absolute value is at most `COEFFICIENT`; in that of an expression it isn't 0.
    pub coefficient: i64,
}
