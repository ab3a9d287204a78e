//! What the guard of an entry asks.

use nona_forms::Form;
use sqlite_items::Items;

/// One thing that has to hold before a loop is entered.
#[cycle(check)]
#[derive(Debug, Drop)]
pub enum Check {
    /// An access: its form lies in the array; or, wrapped, the array isn't empty.
    Place {
        array: u32,
        wrap: bool,
        form: Option<Form>,
    },
    /// An inner loop with these bounds has few turns, and its body's checks hold.
    Turns {
        id: u32,
        low: Form,
        high: Form,
        body: Items<Check>,
    },
}
