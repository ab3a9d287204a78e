//! Affine forms, the accesses of a loop, and when two of them are told apart.
//!
//! `specs/` defines the affine form of an expression (`Affine`), the accesses of a loop in text order with the cells that each
//! may touch in an iteration (`References`), the dependence test (`Verdicts`), when two accesses are separate (`Separate`), which
//! loops are calm (`Calm`) and the guard of an entry (`Guards`). The types here are what the test works on; `nona_affine` makes them and tests them.
#![tactic(auto)]

mod forms;
mod laws;
mod limits;
mod shapes;
mod terms;

pub use forms::{Form, is_coefficient, is_constant};
pub use laws::{
    apart_is_separate, deeds_touch, form_is_kept, form_is_value, guard_is_enough, guard_is_within,
    pair_laws, verdict_is_first_answer,
};
pub use limits::{ACCESSES, COEFFICIENT, CONSTANT, TERMS};
pub use shapes::{InnerLoop, LoopShape, Spot, Verdict};
pub use terms::Term;
