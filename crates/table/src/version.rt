// The version field.

// A version field: absent, or the number written. The rules ask for an enum of its own: absent is a content.
#[derive(Clone, Copy)]
pub enum Version {
    Absent,
    Number(u32),
}
