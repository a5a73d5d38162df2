// What a switch may still be: off, on, either or neither.
#[derive(Clone, Copy, PartialEq, Eq, Debug)]
pub struct Switch {
    pub off: bool,
    pub on: bool,
}
