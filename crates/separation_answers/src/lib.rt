// What separates two entries, as an answer: the first true one of five. A vector outside the other lattice has its position, from 1, among those
// entered, and its squared distance to that lattice. `Said` gives the number and the values of each case.
#![tactic(auto)]

#[derive(Clone, Copy, PartialEq, Eq)]
pub enum Separation {
    Same,
    DifferentM,
    DifferentD,
    FirstOutside(u32, i64),
    SecondOutside(u32, i64),
}
