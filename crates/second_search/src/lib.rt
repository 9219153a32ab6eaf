// A second prover for the trials, built apart from the library and by another method. It reads the book anew (`sheet`), finds instances by walking
// two records together (`put`), and goes backwards from each fact that is not yet found to the rules that conclude it (`second`). It is for books
// that the library has accepted. That it ends and stays inside its tables is proved; what it finds is compared.
#![tactic(auto)]

mod put;
mod second;
mod sheet;

pub use second::{PLACES, survey};
pub use sheet::{Kind, Note, Sheet, byte, length};
