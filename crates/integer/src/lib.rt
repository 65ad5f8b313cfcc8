// Signed numbers as the functions hold them. A value of `Int` that is passed and returned whole is the number that it stands for, where a
// plain `i64` local is read back from its bits at each use.
#![tactic(auto)]

#[derive(Clone, Copy)]
pub struct Int {
    pub v: i64,
}
