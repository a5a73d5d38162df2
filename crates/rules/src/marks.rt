// A mark for each field.
#[derive(Drop)]
pub struct Seen {
    pub marks: [bool; 256],
}
