// Why a frame whose layout is whole is refused, in the order of document 01's numbers 2 to 9 (`number_of_refusal`).
#[derive(Clone, Copy, Debug, PartialEq, Eq)]
pub enum Refusal {
    NotForMember,
    Replayed,
    BadComposition,
    Unsupported,
    Unpaired,
    OverLimit,
    KeyConflict,
    NoKey,
}
